// The greatest common divisor of two numbers.
ghost use Rattle.std.specs.Prelude.{◌<◌};
ghost use Rattle.periods.specs.Divisors.{Gcd, Reaches};

// By Euclid's algorithm; 0 of two zeros.
pub fn gcd(a: u32, b: u32) -> u32
    ensures greatest { Gcd a b result }
    ensures reaches { 0 < a → 0 < b → Reaches a b result }
    ensures some { 0 < a → 0 < result }
{
    let mut x = a;
    let mut y = b;
    while y != 0 {
        (x, y) = (y, x % y);
    }
    x
}

#[cfg(test)]
mod tests {
    use super::*;

    #[test]
    fn small_periods(rt: HostRuntime) {
        assert_eq!(rt; gcd(4, 6), 2);
        assert_eq!(rt; gcd(6, 4), 2);
        assert_eq!(rt; gcd(24, 24), 24);
        assert_eq!(rt; gcd(8, 24), 8);
        assert_eq!(rt; gcd(9, 10), 1);
    }

    #[test]
    fn one_and_zero(rt: HostRuntime) {
        assert_eq!(rt; gcd(1, 7), 1);
        assert_eq!(rt; gcd(7, 1), 1);
        assert_eq!(rt; gcd(7, 0), 7);
        assert_eq!(rt; gcd(0, 7), 7);
        assert_eq!(rt; gcd(0, 0), 0);
    }

    #[test]
    fn large_periods(rt: HostRuntime) {
        let most = u32::MAX;
        assert_eq!(rt; gcd(1_000_000, 999_999), 1);
        assert_eq!(rt; gcd(1_000_000, 600_000), 200_000);
        assert_eq!(rt; gcd(most, most), most);
        assert_eq!(rt; gcd(most, 1), 1);
        assert_eq!(rt; gcd(most, 0), most);
        assert_eq!(rt; gcd(0, most), most);
    }

    // Neighbours among the Fibonacci numbers take the most turns.
    #[test]
    fn most_turns(rt: HostRuntime) {
        assert_eq!(rt; gcd(89, 55), 1);
        assert_eq!(rt; gcd(2_971_215_073, 1_836_311_903), 1);
        assert_eq!(rt; gcd(1_836_311_903, 2_971_215_073), 1);
    }
}
