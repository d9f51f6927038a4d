// The windows of a book whose links all have one cycle and no rest.
ghost use Rattle.std.specs.Prelude.{◌≡◌, true, Ok};
ghost use Rattle.book.specs.Calls.{unfit as unfit_in, lift_answer, lift_after, find_answer, span_answer};
ghost use Rattle.book.specs.Meaning.{numbered, with as changed_at};
ghost use Rattle.book.specs.Steps.{Steps};
ghost use Rattle.bottom.specs.Ledger.{meaning_of, Kept, can_make, ground as without_windows};

use crate::ground::Ground;
use book::{BookFault, LAST_WINDOW, Numbered, Span, Window, is_window};

// How many numbers windows may have.
const WINDOWS: usize = LAST_WINDOW as usize;

// The links of a book, and their windows by their numbers.
#[derive(Drop)]
pub struct Ledger {
    ground: Ground,
    windows: Numbered<Option<Window>, WINDOWS>,
}

impl Ledger {
    // A ledger without windows.
    pub fn new(ground: Ground) -> Ledger
        ensures means { meaning_of result ≡ without_windows ground.links ground.cycle }
        ensures kept { can_make ground.links ground.cycle ≡ Ok tt → Kept result }
    {
        Ledger {
            ground,
            windows: Numbered::all(None),
        }
    }

    // The cycle and the rest of the link, 0 and 0 where there is no such link.
    pub fn span(&self, link: u32) -> Span
        ensures { Kept self.now → result ≡ span_answer link (meaning_of self.now) }
    {
        if (1..=self.ground.links).contains(&link) {
            Span {
                cycle: self.ground.cycle,
                rest: 0,
            }
        } else {
            // No `Option`: this call promises two numbers for every link.
            Span::default()
        }
    }

    // The number's window.
    pub fn find(&self, number: u32) -> Option<Window>
        ensures answer { result ≡ find_answer number (meaning_of self.now) }
        ensures stands { result ≡ (meaning_of self.now).windows number }
    {
        self.windows.at(number).flatten()
    }

    // Why the window cannot stand under the number, whatever the other windows are.
    pub fn unfit(&self, number: u32, window: Window) -> Result<(), BookFault>
        ensures { Kept self.now → result ≡ unfit_in number window (meaning_of self.now) }
    {
        let span = self.span(window.link);
        window.check(number, span)?;
        if self.find(number).is_some() {
            return Err(BookFault::Standing { window: number });
        }
        Ok(())
    }

    // Puts a window or none under the number, where there is such a number.
    pub fn set(&mut self, number: u32, slot: Option<Window>)
        ensures means { numbered number ≡ true → meaning_of self.new ≡ changed_at number slot (meaning_of self.old) }
        ensures ground { self.new.ground ≡ self.old.ground }
    {
        self.windows.set(number, slot);
    }

    // Takes the number's window out and answers it.
    pub fn lift(&mut self, number: u32) -> Result<Window, BookFault>
        ensures { Steps meaning_of Kept (lift_answer number) (lift_after number) self.old self.new result }
    {
        if !is_window(number) {
            return Err(BookFault::Absent);
        }
        let window = self
            .find(number)
            .ok_or(BookFault::NothingThere { window: number })?;
        self.set(number, None);
        Ok(window)
    }
}
