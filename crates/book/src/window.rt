// A window: the steps of a link that are kept for one use, again and again.
ghost use Rattle.std.specs.Prelude.{◌≡◌, Decides};
ghost use Rattle.book.specs.Holding.{holds, Holds};
ghost use Rattle.book.specs.Calls.{misfit};
ghost use Rattle.book.specs.Form.{well_formed, GoodForm};

use crate::fault::BookFault;
use crate::range::is_window;
use crate::span::Span;

// `length` steps of `link` from step `start`, and the same again every `period` steps.
#[derive(Clone, Copy, Debug, PartialEq, Eq)]
pub struct Window {
    pub link: u32,
    pub start: u32,
    pub length: u32,
    pub period: u32,
}

impl Window {
    // Whether the window, on a link with this rest, holds the step.
    pub fn holds(self, rest: u32, step: u64) -> bool
        ensures value { result ≡ holds self rest step }
        ensures always { Decides result (Holds self rest step) }
    {
        let Some(since) = step.checked_sub(u64::from(self.start)) else {
            return false;
        };
        // A window with no period comes only once.
        let past = since.checked_rem(u64::from(self.period)).unwrap_or(since);
        past < u64::from(self.length) + u64::from(rest)
    }

    // Whether a link with this span may have the window.
    pub fn is_well_formed(self, span: Span) -> bool
        ensures value { result ≡ well_formed span.cycle span.rest self }
        ensures form { Decides result (GoodForm span.cycle span.rest self) }
    {
        let end = u64::from(self.start) + u64::from(self.length) + u64::from(span.rest);
        self.length > 0
            && self.period > 0
            && span.cycle % self.period == 0
            && end <= u64::from(self.period)
    }

    // Whether the window may have the number on a link with this span, whatever windows there are.
    pub fn check(self, number: u32, span: Span) -> Result<(), BookFault>
        ensures { result ≡ misfit number self span.cycle span.rest }
    {
        if !is_window(number) || span.cycle == 0 {
            return Err(BookFault::Absent);
        }
        if !self.is_well_formed(span) {
            return Err(BookFault::BadForm {
                window: number,
                rest: span.rest,
            });
        }
        Ok(())
    }
}

#[cfg(test)]
mod tests {
    use super::*;

    fn window(start: u32, length: u32, period: u32) -> Window {
        Window {
            link: 1,
            start,
            length,
            period,
        }
    }

    fn span(cycle: u32, rest: u32) -> Span {
        Span { cycle, rest }
    }

    // Steps 3 and 4 of every ten, and with a rest of 2 also 5 and 6.
    #[test]
    fn held_steps(rt: HostRuntime) {
        let pair = window(3, 2, 10);
        assert_eq!(rt; pair.holds(0, 2), false);
        assert_eq!(rt; pair.holds(0, 3), true);
        assert_eq!(rt; pair.holds(0, 4), true);
        assert_eq!(rt; pair.holds(0, 5), false);
        assert_eq!(rt; pair.holds(2, 6), true);
        assert_eq!(rt; pair.holds(2, 7), false);
        assert_eq!(rt; pair.holds(0, 10_000_000_003), true);
        assert_eq!(rt; pair.holds(0, 10_000_000_005), false);
        assert_eq!(rt; pair.holds(0, u64::MAX), false);
    }

    #[test]
    fn once_only(rt: HostRuntime) {
        assert_eq!(rt; window(3, 2, 0).holds(0, 4), true);
        assert_eq!(rt; window(3, 2, 0).holds(0, 13), false);
        assert_eq!(rt; window(3, 0, 1).holds(0, 3), false);
    }

    #[test]
    fn forms(rt: HostRuntime) {
        let most = u32::MAX;
        assert_eq!(rt; window(0, 1, 4).is_well_formed(span(24, 0)), true);
        assert_eq!(rt; window(3, 1, 4).is_well_formed(span(24, 0)), true);
        assert_eq!(rt; window(3, 1, 4).is_well_formed(span(24, 1)), false);
        assert_eq!(rt; window(0, 0, 4).is_well_formed(span(24, 0)), false);
        assert_eq!(rt; window(0, 1, 0).is_well_formed(span(24, 0)), false);
        assert_eq!(rt; window(0, 1, 5).is_well_formed(span(24, 0)), false);
        assert_eq!(rt;
            window(most, most, most).is_well_formed(span(most, most)),
            false
        );
        assert_eq!(rt; window(0, most, most).is_well_formed(span(most, 0)), true);
    }
}
