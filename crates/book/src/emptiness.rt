// Whether a book holds windows.
ghost use Rattle.std.specs.Prelude.{◌≡◌, Decides};
ghost use Rattle.book.specs.Calls.{holds_windows};
ghost use Rattle.book.specs.Sound.{SomeStands};

use crate::book::Book;
use crate::range::LAST_WINDOW;

// Whether some number of the book has a window.
pub fn holds_windows<B: Book>(book: &B) -> bool
    ensures value { B.Book.keeps book.now → result ≡ holds_windows (B.Book.meaning book.now) }
    ensures exact { B.Book.keeps book.now → Decides result (SomeStands (B.Book.meaning book.now)) }
{
    (1..=LAST_WINDOW).any(|number| book.find(number).is_some())
}
