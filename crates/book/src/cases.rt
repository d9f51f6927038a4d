// Worked cases: what the definitions must say of numbers that were worked out by hand.
ghost use Rattle.std.specs.Prelude.{◌≡◌};
ghost use Rattle.std.specs.List.{AllByRecursion};
ghost use Rattle.book.specs.Cases.{worked_cases, FirstMeeting};

use crate::window::Window;

// Two windows of one link without rest, and the first step that both hold, none where they never meet.
#[derive(Clone, Copy, Debug, PartialEq, Eq)]
pub struct WorkedCase {
    pub one: Window,
    pub other: Window,
    pub first: Option<u32>,
}

// The list of worked cases.
pub fn worked_cases() -> [WorkedCase; 2]
    ensures list { result ≡ worked_cases }
    ensures hold { AllByRecursion FirstMeeting result }
{
    let other = Window {
        link: 1,
        start: 2,
        length: 1,
        period: 6,
    };
    [
        WorkedCase {
            one: Window {
                link: 1,
                start: 0,
                length: 1,
                period: 4,
            },
            other,
            first: Some(8),
        },
        WorkedCase {
            one: Window {
                link: 1,
                start: 1,
                length: 1,
                period: 4,
            },
            other,
            first: None,
        },
    ]
}
