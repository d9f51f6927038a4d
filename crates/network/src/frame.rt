// The time that a message's frame takes on a link.
ghost use Rattle.std.specs.Prelude.{◌≡◌};
ghost use Rattle.network.specs.FrameTime.{steps_of, micros_of, LeastLength, ShortestTime};

// A message on its way over one link: its size in bytes, the link's rate in Mbit/s and the link's grain,
// the length of one step in µs.
#[derive(Clone, Copy, Debug, PartialEq, Eq)]
pub struct Frame {
    pub size: u32,
    pub rate: u32,
    pub grain: u32,
}

// Bytes that a frame has on the wire beside those of its message.
const OVERHEAD: u64 = 67;

impl Frame {
    // The frame's length in steps of the grain, rounded up; none where rate or grain is 0.
    pub fn steps(self) -> Option<u64>
        ensures value { result ≡ steps_of self }
        ensures least { LeastLength self result }
    {
        if self.rate == 0 || self.grain == 0 {
            return None;
        }
        let bits = (u64::from(self.size) + OVERHEAD) * 8;
        let bits_a_step = u64::from(self.rate) * u64::from(self.grain);
        Some(bits.div_ceil(bits_a_step))
    }

    // The same length in µs; none where rate or grain is 0.
    pub fn micros(self) -> Option<u64>
        ensures value { result ≡ micros_of self }
        ensures least { ShortestTime self result }
    {
        let steps = self.steps()?;
        Some(steps * u64::from(self.grain))
    }
}

#[cfg(test)]
mod tests {
    use super::*;

    fn on(size: u32, rate: u32, grain: u32) -> Frame {
        Frame { size, rate, grain }
    }

    #[test]
    fn smallest_and_largest_message(rt: HostRuntime) {
        assert_eq!(rt; on(1, 1, 1).steps(), Some(544));
        assert_eq!(rt; on(1, 1000, 1_000_000).steps(), Some(1));
        assert_eq!(rt; on(1471, 1, 1).steps(), Some(12_304));
        assert_eq!(rt; on(1471, 1000, 1).steps(), Some(13));
        assert_eq!(rt; on(1471, 1000, 1).micros(), Some(13));
    }

    // A frame of 2,400 bits.
    #[test]
    fn exact_division_and_one_bit_more(rt: HostRuntime) {
        assert_eq!(rt; on(233, 2, 100).steps(), Some(12));
        assert_eq!(rt; on(233, 2, 100).micros(), Some(1200));
        assert_eq!(rt; on(233, 1, 2400).steps(), Some(1));
        assert_eq!(rt; on(233, 1, 2399).steps(), Some(2));
        assert_eq!(rt; on(233, 1, 2401).steps(), Some(1));
        assert_eq!(rt; on(233, 2, 1000).steps(), Some(2));
        assert_eq!(rt; on(233, 2, 1000).micros(), Some(2000));
    }

    #[test]
    fn largest_numbers(rt: HostRuntime) {
        let most = u32::MAX;
        assert_eq!(rt; on(most, most, most).steps(), Some(1));
        assert_eq!(rt; on(most, most, most).micros(), Some(4_294_967_295));
        assert_eq!(rt; on(most, 1, 1).steps(), Some(34_359_738_896));
        assert_eq!(rt; on(most, 1, most).steps(), Some(9));
        assert_eq!(rt; on(most, 1, most).micros(), Some(38_654_705_655));
        assert_eq!(rt; on(most, most, 1).steps(), Some(9));
    }

    #[test]
    fn zeros(rt: HostRuntime) {
        assert_eq!(rt; on(233, 0, 100).steps(), None);
        assert_eq!(rt; on(233, 2, 0).steps(), None);
        assert_eq!(rt; on(0, 0, 0).micros(), None);
        assert_eq!(rt; on(0, 1, 1).steps(), Some(536));
    }
}
