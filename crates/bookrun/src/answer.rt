// The whole run, from the script to what is printed.
ghost use Rattle.std.specs.Prelude.{◌≡◌, ◌++◌, IfOk, Some, None, string_bytes};
ghost use Rattle.text.specs.Lines.{lines, LinesOf};
ghost use Rattle.bookrun.specs.Journals.{Records, Began};
ghost use Rattle.bookrun.specs.Openings.{ground_of};
ghost use Rattle.bookrun.specs.Printed.{answer as answer_to};
ghost use Rattle.bookrun.specs.Scripts.{replies, SoundThroughout};

use crate::journal::Journal;
use crate::opening::Opening;
use crate::perform::respond;
use crate::reply::Accepted;
use book::Book;
use bottom::FormulaBook;
use script::{Pile, read_line};
use std::alloc::Global;
use std::fmt;
use text::Lines;

// Answers lines until there is a book, and says which; the journal is there either way.
fn begin(heap: Global, lines: &mut Lines) -> Result<(Option<Opening>, Journal), fmt::Error>
    ensures { IfOk result (λ o. Began lines.old lines.new o.0 o.1) }
{
    let mut journal = Journal::new(heap);
    // With a `for` over the reference the proof was tried and did not close.
    while let Some(line) = lines.next() {
        let opening = Opening::of(read_line(line));
        journal = journal.write(opening.map(|made| made.map(|_| Some(Accepted::Done))))?;
        if let Some(Ok(opening)) = opening {
            return Ok((Some(opening), journal));
        }
    }
    Ok((None, journal))
}

// Answers the lines that are left by calls on the book. Which replies there were before is for the caller to say, as in
// `Journal::write`.
fn run<B: Book>(mut journal: Journal, lines: Lines, book: &mut B) -> Result<Journal, fmt::Error>
    ensures { B.Book.keeps book.old → (before : _) → Records before journal → IfOk result (Records (before ++ replies (Some (B.Book.meaning book.old)) lines.entry)) }
{
    for line in lines {
        journal = journal.write(respond(book, read_line(line)))?;
    }
    Ok(journal)
}

// Makes the book, and answers the lines that are left by calls on it.
fn run_on(journal: Journal, lines: Lines, opening: Opening) -> Result<Journal, fmt::Error>
    ensures { (before : _) → Records before journal → IfOk result (Records (before ++ replies (Some (ground_of opening)) lines.entry)) }
{
    match opening.pile {
        Pile::Formula => {
            let mut book = FormulaBook::new(opening.ground);
            run(journal, lines, &mut book)
        }
    }
}

// The journal of a whole script.
fn answer_lines(heap: Global, script: &[u8]) -> Result<Journal, fmt::Error>
    ensures { IfOk result (Records (replies None (lines script.now))) }
{
    let mut lines = Lines::of(script);
    match begin(heap, &mut lines)? {
        (None, journal) => Ok(journal),
        (Some(opening), journal) => run_on(journal, lines, opening),
    }
}

// What the program prints for a script.
pub fn answer(heap: Global, script: &[u8]) -> Result<String, fmt::Error>
    ensures text { IfOk result (λ text. string_bytes text ≡ answer_to script.now) }
    ensures lines { LinesOf (lines script.now) script.now }
    ensures sound { SoundThroughout (lines script.now) }
{
    answer_lines(heap, script)?.close()
}
