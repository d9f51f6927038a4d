// One line of the input: the frame that it asks about.
ghost use Rattle.std.specs.Prelude.{◌≡◌};
ghost use Rattle.text.specs.Number.{seen};
ghost use Rattle.frames.specs.Line.{field as read_field, form as read_form, in_range, allowed, read_line, ReadsExactly};
ghost use Rattle.frames.specs.Refused.{Explained};

use crate::fault::{Fault, Reason};
use crate::key::Key;
use network::Frame;
use text::{after_front, number};

// The number of `key` at the front of `text`, and what follows it.
fn field(text: &[u8], key: Key) -> Result<(u32, &[u8]), Fault>
    ensures { seen result ≡ read_field key text.now }
{
    let rest = after_front(text, key.opening()).ok_or(Fault {
        key,
        reason: Reason::KeyExpected,
    })?;
    number(rest).map_err(|fault| Fault {
        key,
        reason: fault.into(),
    })
}

// The three numbers of a line.
fn form(line: &[u8]) -> Result<Frame, Fault>
    ensures { result ≡ read_form line.now }
{
    let (size, rest) = field(line, Key::Size)?;
    let (rate, rest) = field(rest, Key::Rate)?;
    let (grain, rest) = field(rest, Key::Grain)?;
    if !rest.is_empty() {
        return Err(Fault {
            key: Key::Grain,
            reason: Reason::EndExpected,
        });
    }
    Ok(Frame { size, rate, grain })
}

// Refuses a number that its key may not have.
fn check_range(key: Key, n: u32) -> Result<(), Fault>
    ensures { result ≡ in_range key n }
{
    let range = key.range();
    if n < range.least {
        return Err(Fault {
            key,
            reason: Reason::Below(range.least),
        });
    }
    if n > range.most {
        return Err(Fault {
            key,
            reason: Reason::Above(range.most),
        });
    }
    Ok(())
}

// Refuses a frame with a number that its key may not have.
fn check_ranges(frame: Frame) -> Result<Frame, Fault>
    ensures { result ≡ allowed frame }
{
    check_range(Key::Size, frame.size)?;
    check_range(Key::Rate, frame.rate)?;
    check_range(Key::Grain, frame.grain)?;
    Ok(frame)
}

// The frame that a line asks about: its form comes first, then the range of each number from the left.
pub fn read_line(line: &[u8]) -> Result<Frame, Fault>
    ensures value { result ≡ read_line line.now }
    ensures exact { ReadsExactly line.now result }
    ensures explained { Explained line.now result }
{
    check_ranges(form(line)?)
}
