// Why a call of a book is refused, and why a book cannot be made.
ghost use Rattle.std.specs.Prelude.{◌≡◌};
ghost use Rattle.book.specs.Causes.{cause_of, make_cause};

#[derive(Clone, Copy, Debug, PartialEq, Eq)]
pub enum BookFault {
    // There is no such window number, or no such link.
    Absent,
    // The link may not have such a window.
    BadForm { window: u32, rest: u32 },
    // The window's number has a window already.
    Standing { window: u32 },
    // The window would meet a standing one, and this is the lowest such number.
    Clash { window: u32, other: u32 },
    // The number has no window.
    NothingThere { window: u32 },
}

// A refusal as it is reported: the number of its cause and two values.
#[derive(Clone, Copy, Debug, PartialEq, Eq)]
pub struct Cause {
    pub number: u32,
    pub a: u32,
    pub b: u32,
}

// The number and the two values under which the refusal is reported.
impl From<BookFault> for Cause {
    ghost from_gives = { λ fault cause. cause ≡ cause_of fault };

    fn from(fault: BookFault) -> Cause {
        let (number, a, b) = match fault {
            BookFault::Absent => (9, 0, 0),
            BookFault::BadForm { window, rest } => (10, window, rest),
            BookFault::Standing { window } => (11, window, 0),
            BookFault::Clash { window, other } => (12, window, other),
            BookFault::NothingThere { window } => (13, window, 0),
        };
        Cause { number, a, b }
    }
}

#[derive(Clone, Copy, Debug, PartialEq, Eq)]
pub enum MakeFault {
    // The memory is too short.
    ShortMemory,
    // The rest of the link would be too great, and this is the first such link.
    RestTooGreat { link: u32 },
    // The book below holds windows.
    HoldsWindows,
    // There is no book with so many links or such a cycle.
    OutOfRange,
}

// The number and the two values under which the refusal is reported.
impl From<MakeFault> for Cause {
    ghost from_gives = { λ fault cause. cause ≡ make_cause fault };

    fn from(fault: MakeFault) -> Cause {
        let (number, a) = match fault {
            MakeFault::ShortMemory => (1, 0),
            MakeFault::RestTooGreat { link } => (6, link),
            MakeFault::HoldsWindows => (7, 0),
            MakeFault::OutOfRange => (9, 0),
        };
        Cause { number, a, b: 0 }
    }
}
