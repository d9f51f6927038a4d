// The ranges that a network's numbers keep to.
ghost use Rattle.std.specs.Prelude.{◌≡◌};
ghost use Rattle.network.specs.Ranges.{range_of};

// The numbers from `least` to `most`, both among them.
#[derive(Clone, Copy, Debug, PartialEq, Eq)]
pub struct Range {
    pub least: u32,
    pub most: u32,
}

// What a number of the network says.
#[derive(Clone, Copy)]
pub enum Quantity {
    // The bytes of a message.
    Size,
    // The Mbit/s of a link between two stations.
    Rate,
    // The µs of a link's step.
    Grain,
}

impl Quantity {
    // The numbers that it may be.
    pub fn range(self) -> Range
        ensures { result ≡ range_of self }
    {
        match self {
            Quantity::Size => Range {
                least: 1,
                most: 1_471,
            },
            Quantity::Rate => Range {
                least: 1,
                most: 1_000,
            },
            Quantity::Grain => Range {
                least: 1,
                most: 1_000_000,
            },
        }
    }
}
