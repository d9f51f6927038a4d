// What every book does, whatever keeps its windows.
ghost use Rattle.std.specs.Prelude.{◌≡◌};
ghost use Rattle.book.specs.Meaning.{Meaning};
ghost use Rattle.book.specs.Calls.{book_answer, book_after, lift_answer, lift_after, find_answer, held_answer, span_answer};
ghost use Rattle.book.specs.Sound.{Sound, ClashExactly, HeldExactly};
ghost use Rattle.book.specs.Steps.{Steps};

use crate::fault::BookFault;
use crate::span::Span;
use crate::window::Window;

// Windows by their numbers, 1 to 256, on links 1 to 32.
pub trait Book {
    // What the book means: its windows, and the cycle and the rest of each link.
    ghost meaning: { Self → Meaning };

    // The value keeps that meaning. Whatever makes a book ensures it, and every call keeps it. It is a premise of each clause, and
    // no invariant of the type: makers take any numbers and refuse nothing.
    ghost keeps: { Self → Type 0 };

    // Lets the window stand under the number, or says why not.
    fn book(&mut self, number: u32, window: Window) -> Result<(), BookFault>
        ensures steps { Steps meaning keeps (book_answer number window) (book_after number window) self.old self.new result }
        ensures clash { keeps self.old → ClashExactly (meaning self.old) number window result };

    // Takes the number's window out and answers it.
    fn lift(&mut self, number: u32) -> Result<Window, BookFault>
        ensures { Steps meaning keeps (lift_answer number) (lift_after number) self.old self.new result };

    // The number's window.
    fn find(&self, number: u32) -> Option<Window>
        ensures { keeps self.now → result ≡ find_answer number (meaning self.now) };

    // The lowest number whose window holds the step of the link.
    fn held(&self, link: u32, step: u64) -> Option<u32>
        ensures answer { keeps self.now → result ≡ held_answer link step (meaning self.now) }
        ensures exact { keeps self.now → HeldExactly (meaning self.now) link step result };

    // The cycle and the rest of the link, 0 and 0 where there is no such link.
    fn span(&self, link: u32) -> Span
        ensures { keeps self.now → result ≡ span_answer link (meaning self.now) };

    // No two windows of a book ever hold one step of a link.
    ghost sound: { (x : Self) → keeps x → Sound (meaning x) };
}
