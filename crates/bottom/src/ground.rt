// What a book without windows is made of.
ghost use Rattle.std.specs.Prelude.{◌≡◌};
ghost use Rattle.bottom.specs.Ledger.{can_make};

use book::{BookFault, LAST_LINK};

// The longest cycle, in steps.
const LONGEST: u32 = 1_000_000;

// Links 1 to `links`, each with this cycle and no rest.
#[derive(Clone, Copy, Debug, PartialEq, Eq)]
pub struct Ground {
    pub links: u32,
    pub cycle: u32,
}

impl Ground {
    // Whether there can be a book with so many links of this cycle.
    pub fn check(self) -> Result<(), BookFault>
        ensures { result ≡ can_make self.links self.cycle }
    {
        if self.links <= LAST_LINK && (1..=LONGEST).contains(&self.cycle) {
            Ok(())
        } else {
            Err(BookFault::Absent)
        }
    }
}
