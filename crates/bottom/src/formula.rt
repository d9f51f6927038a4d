// The book that decides by arithmetic on the periods of its windows.
ghost use Rattle.std.specs.Prelude.{◌≡◌, Ok};
ghost use Rattle.book.specs.Calls.{meets_standing, first_met, holds_standing, held_answer, book_answer};
ghost use Rattle.book.specs.Sound.{Suits};
ghost use Rattle.bottom.specs.Ledger.{meaning_of, Kept, can_make, ground as without_windows};
ghost use Rattle.std.proofs.Common.{rules};

use crate::ground::Ground;
use crate::ledger::Ledger;
use crate::meeting::meets;
use book::{Book, BookFault, LAST_WINDOW, Span, Window, is_link};

// A book of links 1 to n, each with the same cycle and no rest.
#[derive(Drop)]
pub struct FormulaBook {
    ledger: Ledger,
}

impl FormulaBook {
    // Whether a book with so many links of this cycle can be made. It passes the question on: each kind of book has this call of its
    // own, and another kind may need more than a ground, such as memory.
    pub fn can_make(ground: Ground) -> Result<(), BookFault>
        ensures { result ≡ can_make ground.links ground.cycle }
    {
        ground.check()
    }

    // The book without windows. It keeps its meaning where it can be made.
    pub fn new(ground: Ground) -> FormulaBook
        ensures means { meaning_of result.ledger ≡ without_windows ground.links ground.cycle }
        ensures kept { can_make ground.links ground.cycle ≡ Ok tt → Kept result.ledger }
    {
        FormulaBook {
            ledger: Ledger::new(ground),
        }
    }

    // Whether the number has a window of the same link that meets `window`.
    fn meets_standing(&self, number: u32, window: Window) -> bool
        ensures { Kept self.now.ledger → Suits (meaning_of self.now.ledger) window → result ≡ meets_standing (meaning_of self.now.ledger) window ((meaning_of self.now.ledger).windows number) }
    {
        self.ledger.find(number).is_some_and(|standing| standing.link == window.link
            && meets(standing, window))
    }

    // The lowest number whose window meets `window`. Here and in `holder` the range has no last number of its own: over
    // `1..=LAST_WINDOW` a turn of the loop takes twice as many instructions.
    fn first_met(&self, window: Window) -> Option<u32>
        ensures { Kept self.now.ledger → Suits (meaning_of self.now.ledger) window → result ≡ first_met (meaning_of self.now.ledger) window }
    {
        (1..LAST_WINDOW + 1).find(|&number| self.meets_standing(number, window))
    }

    // Whether the window may stand under the number, and if not, why.
    fn decide(&self, number: u32, window: Window) -> Result<(), BookFault>
        ensures { Kept self.now.ledger → result ≡ book_answer number window (meaning_of self.now.ledger) }
    {
        self.ledger.unfit(number, window)?;
        match self.first_met(window) {
            None => Ok(()),
            Some(other) => Err(BookFault::Clash {
                window: number,
                other,
            }),
        }
    }

    // Whether the number has a window of the link that holds the step.
    fn holds_standing(&self, number: u32, link: u32, step: u64) -> bool
        ensures { result ≡ holds_standing (meaning_of self.now.ledger) link step ((meaning_of self.now.ledger).windows number) }
    {
        self.ledger
            .find(number)
            .is_some_and(|window| window.link == link && window.holds(0, step))
    }

    // The lowest number whose window holds the step of the link. Not inlined, its loop has shorter instructions.
    #[inline(never)]
    fn holder(&self, link: u32, step: u64) -> Option<u32>
        ensures { result ≡ held_answer link step (meaning_of self.now.ledger) }
    {
        if !is_link(link) {
            return None;
        }
        (1..LAST_WINDOW + 1).find(|&number| self.holds_standing(number, link, step))
    }
}

impl Book for FormulaBook {
    ghost meaning = { λ b. meaning_of b.ledger };

    // A premise, and no ghost field of the ledger: `new` takes any numbers and cannot fail, so some ledgers are not kept.
    ghost keeps = { λ b. Kept b.ledger };

    ghost sound = { Prim.search rules };

    fn book(&mut self, number: u32, window: Window) -> Result<(), BookFault> {
        self.decide(number, window)?;
        self.ledger.set(number, Some(window));
        Ok(())
    }

    fn lift(&mut self, number: u32) -> Result<Window, BookFault> {
        self.ledger.lift(number)
    }

    fn find(&self, number: u32) -> Option<Window> {
        self.ledger.find(number)
    }

    fn held(&self, link: u32, step: u64) -> Option<u32> {
        self.holder(link, step)
    }

    fn span(&self, link: u32) -> Span {
        self.ledger.span(link)
    }
}

#[cfg(test)]
mod tests {
    use super::*;
    use book::{WorkedCase, worked_cases};

    fn window(link: u32, start: u32, length: u32, period: u32) -> Window {
        Window {
            link,
            start,
            length,
            period,
        }
    }

    fn ground(links: u32, cycle: u32) -> Ground {
        Ground { links, cycle }
    }

    #[test]
    fn the_worked_cases(rt: HostRuntime) {
        for WorkedCase { one, other, first } in worked_cases() {
            let mut book = FormulaBook::new(ground(1, 12));
            assert_eq!(rt; book.book(1, one), Ok(()));
            let clash = Err(BookFault::Clash {
                window: 2,
                other: 1,
            });
            match first {
                Some(step) => {
                    assert_eq!(rt; book.book(2, other), clash);
                    assert_eq!(rt; book.held(1, u64::from(step)), Some(1));
                }
                None => assert_eq!(rt; book.book(2, other), Ok(())),
            }
        }
    }

    #[test]
    fn what_can_be_made(rt: HostRuntime) {
        let most = u32::MAX;
        assert_eq!(rt; FormulaBook::can_make(ground(0, 1)), Ok(()));
        assert_eq!(rt; FormulaBook::can_make(ground(32, 1_000_000)), Ok(()));
        for (links, cycle) in [(33, 1), (1, 0), (1, 1_000_001), (most, most)] {
            assert_eq!(rt;
                FormulaBook::can_make(ground(links, cycle)),
                Err(BookFault::Absent)
            );
        }
    }

    // A window for each step of a cycle of 256, and no room for another.
    #[test]
    fn every_number(rt: HostRuntime) {
        let mut book = FormulaBook::new(ground(32, 256));
        for number in 1..=LAST_WINDOW {
            assert_eq!(rt; book.book(number, window(32, number - 1, 1, 256)), Ok(()));
        }
        assert_eq!(rt; book.held(32, 256_000_000_255), Some(256));
        assert_eq!(rt; book.lift(200), Ok(window(32, 199, 1, 256)));
        let clash = Err(BookFault::Clash {
            window: 200,
            other: 8,
        });
        assert_eq!(rt; book.book(200, window(32, 7, 1, 8)), clash);
        assert_eq!(rt; book.find(200), None);
        assert_eq!(rt; book.book(200, window(32, 199, 1, 256)), Ok(()));
    }

    // Periods whose common divisor is 1 meet, however long the cycle.
    #[test]
    fn long_periods(rt: HostRuntime) {
        let mut book = FormulaBook::new(ground(1, 1_000_000));
        assert_eq!(rt; book.book(1, window(1, 0, 1, 15_625)), Ok(()));
        let clash = Err(BookFault::Clash {
            window: 2,
            other: 1,
        });
        assert_eq!(rt; book.book(2, window(1, 63, 1, 64)), clash);
        assert_eq!(rt; book.book(2, window(1, 4, 1, 15_625)), Ok(()));
        assert_eq!(rt; book.held(1, 15_624_984_379), Some(2));
    }
}
