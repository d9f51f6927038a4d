// Decimal numbers in a text.
ghost use Rattle.std.specs.Prelude.{◌≡◌};
ghost use Rattle.std.specs.Char.{is_ascii_digit};
ghost use Rattle.std.specs.List.{prefix_len};
ghost use Rattle.text.specs.Number.{value_of, small, whole_number, number as read_number, seen, ReadsNumber};

// Why no number is read.
#[derive(Clone, Copy, Debug, PartialEq, Eq)]
pub enum NumberFault {
    // The text does not begin with a digit.
    DigitExpected,
    // The number has a 0 in front of another digit.
    LeadingZero,
    // The number is above 4,294,967,295.
    TooGreat,
}

// How many digits `text` begins with.
fn digit_count(text: &[u8]) -> usize
    ensures { result ≡ prefix_len is_ascii_digit text.now }
{
    text.iter().take_while(|byte| byte.is_ascii_digit()).count()
}

// The number that the digits write, none where it is above 4,294,967,295.
fn value(digits: &[u8]) -> Option<u32>
    ensures { result ≡ small (value_of digits.now) }
{
    // With `try_fold` the proof was tried and did not close.
    let mut value: u32 = 0;
    for digit in digits {
        value = value
            .checked_mul(10)?
            .checked_add(u32::from(digit.saturating_sub(b'0')))?;
    }
    Some(value)
}

// The number that the digits write, where they write one of 32 bits in the one way that is allowed.
fn whole_number(digits: &[u8]) -> Result<u32, NumberFault>
    ensures { result ≡ whole_number digits.now }
{
    match digits {
        [] => Err(NumberFault::DigitExpected),
        [b'0', _, ..] => Err(NumberFault::LeadingZero),
        _ => value(digits).ok_or(NumberFault::TooGreat),
    }
}

// The number that `text` begins with, and what follows it.
pub fn number(text: &[u8]) -> Result<(u32, &[u8]), NumberFault>
    ensures value { seen result ≡ read_number text.now }
    ensures exact { ReadsNumber text.now (seen result) }
{
    let (digits, rest) = text.split_at(digit_count(text));
    let n = whole_number(digits)?;
    Ok((n, rest))
}

#[cfg(test)]
mod tests {
    use super::*;
    use std::process::Abort;

    // Whether `number` accepts the front of `text` as `found` and leaves `rest`.
    fn reads(rt: &impl Abort, text: &[u8], found: u32, rest: &[u8]) {
        assert_eq!(rt; number(text), Ok((found, rest)));
    }

    // Whether `number` refuses `text` for this reason.
    fn refuses(rt: &impl Abort, text: &[u8], why: NumberFault) {
        assert_eq!(rt; number(text).err(), Some(why));
    }

    #[test]
    fn numbers(rt: HostRuntime) {
        reads(&rt, b"0", 0, b"");
        reads(&rt, b"7 more", 7, b" more");
        reads(&rt, b"1024,", 1024, b",");
        reads(&rt, b"4294967295", 4_294_967_295, b"");
    }

    #[test]
    fn refusals(rt: HostRuntime) {
        refuses(&rt, b"", NumberFault::DigitExpected);
        refuses(&rt, b"-1", NumberFault::DigitExpected);
        refuses(&rt, b"00", NumberFault::LeadingZero);
        refuses(&rt, b"07", NumberFault::LeadingZero);
        refuses(&rt, b"4294967296", NumberFault::TooGreat);
        refuses(&rt, b"99999999999999999999999", NumberFault::TooGreat);
    }
}
