// A call of a script, on any book.
ghost use Rattle.std.specs.Prelude.{◌≡◌};
ghost use Rattle.book.specs.Steps.{Steps};
ghost use Rattle.bookrun.specs.Scripts.{call_reply, called};
ghost use Rattle.bookrun.specs.Performing.{reply as reply_of, after as meaning_after};

use crate::reply::{Accepted, Reply};
use book::Book;
use script::{Call, Order};

// Makes the call on the book.
pub fn perform<B: Book>(book: &mut B, call: Call) -> Reply
    ensures { Steps B.Book.meaning B.Book.keeps (reply_of call) (meaning_after call) book.old book.new result }
{
    Ok(match call {
        Call::Book { number, window } => {
            book.book(number, window)?;
            Some(Accepted::Done)
        }
        Call::Lift { number } => Some(Accepted::Stands(book.lift(number)?)),
        Call::Find { number } => book.find(number).map(Accepted::Stands),
        Call::Held { link, step } => book.held(link, u64::from(step)).map(Accepted::Holds),
        Call::Span { link } => Some(Accepted::Spans(book.span(link))),
    })
}

// Answers an order once there is a book; none where it is no call.
pub fn respond<B: Book>(book: &mut B, order: Option<Order>) -> Option<Reply>
    ensures { Steps B.Book.meaning B.Book.keeps (call_reply order) (called order) book.old book.new result }
{
    match order {
        Some(Order::Call(call)) => Some(perform(book, call)),
        _ => None,
    }
}
