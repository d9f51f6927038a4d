// Why a line is refused.
ghost use Rattle.std.specs.Prelude.{◌≡◌, Some};
ghost use Rattle.frames.specs.Line.{number_reason};
ghost use Rattle.frames.specs.Texts.{reason_text, refusal_text};

use crate::key::Key;
use std::fmt;
use text::NumberFault;

#[derive(Clone, Copy)]
pub enum Reason {
    // The key does not stand where it must.
    KeyExpected,
    // No number follows the key.
    DigitExpected,
    // The number has a 0 in front of another digit.
    LeadingZero,
    // The number is smaller than this, the least that is allowed.
    Below(u32),
    // The number is greater than this, the most that is allowed.
    Above(u32),
    // The line goes on after its last number.
    EndExpected,
}

// The reason where no number could be read.
impl From<NumberFault> for Reason {
    ghost from_gives = { λ fault reason. reason ≡ number_reason fault };

    fn from(fault: NumberFault) -> Reason {
        match fault {
            NumberFault::DigitExpected => Reason::DigitExpected,
            NumberFault::LeadingZero => Reason::LeadingZero,
            NumberFault::TooGreat => Reason::Above(u32::MAX),
        }
    }
}

// The first thing that is wrong with a line: at which key, and why.
#[derive(Clone, Copy)]
pub struct Fault {
    pub key: Key,
    pub reason: Reason,
}

// A line that is refused, counted from 1.
#[derive(Clone, Copy)]
pub struct Refusal {
    pub line: usize,
    pub fault: Fault,
}

impl fmt::Display for Reason {
    ghost output = { λ r. Some (reason_text r) };

    fn fmt<W: fmt::Write>(&self, f: &mut fmt::Formatter<W>) -> fmt::Result {
        match self {
            Reason::KeyExpected => f.write_str("key expected"),
            Reason::DigitExpected => f.write_str("digit expected"),
            Reason::LeadingZero => f.write_str("leading zero"),
            Reason::Below(least) => write!(f, "number below {least}"),
            Reason::Above(most) => write!(f, "number above {most}"),
            Reason::EndExpected => f.write_str("end of line expected"),
        }
    }
}

impl fmt::Display for Refusal {
    ghost output = { λ r. Some (refusal_text r) };

    fn fmt<W: fmt::Write>(&self, f: &mut fmt::Formatter<W>) -> fmt::Result {
        let line = self.line;
        let key = self.fault.key;
        let reason = self.fault.reason;
        write!(f, "refused line={line} key={key} reason={reason}")
    }
}
