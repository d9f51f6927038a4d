// What is answered to an order.
ghost use Rattle.std.specs.Prelude.{Some};
ghost use Rattle.bookrun.specs.Replies.{accepted_text, answer_text};

use book::{Cause, Span, Window};
use std::fmt;

// What there is to say of an accepted call.
#[derive(Clone, Copy)]
pub enum Accepted {
    // The book was made, or the window stands.
    Done,
    // The window that was asked for or taken out.
    Stands(Window),
    // The number of the window that holds the step.
    Holds(u32),
    // The cycle and the rest of a link.
    Spans(Span),
}

// The answer to a call, none where there is no such window, or why the call was refused.
pub type Reply = Result<Option<Accepted>, Cause>;

impl fmt::Display for Accepted {
    ghost output = { λ a. Some (accepted_text a) };

    fn fmt<W: fmt::Write>(&self, f: &mut fmt::Formatter<W>) -> fmt::Result {
        match self {
            Accepted::Done => f.write_str("done"),
            Accepted::Stands(window) => {
                let Window {
                    link,
                    start,
                    length,
                    period,
                } = *window;
                write!(
                    f,
                    "link={link} start={start} length={length} period={period}"
                )
            }
            Accepted::Holds(number) => write!(f, "number={number}"),
            Accepted::Spans(span) => {
                let Span { cycle, rest } = *span;
                write!(f, "cycle={cycle} rest={rest}")
            }
        }
    }
}

// What is answered to a line of the script, counted from 1; no reply where the line cannot be read.
#[derive(Clone, Copy)]
pub struct Answered {
    pub line: u64,
    pub reply: Option<Reply>,
}

impl fmt::Display for Answered {
    ghost output = { λ a. Some (answer_text a.line a.reply) };

    fn fmt<W: fmt::Write>(&self, f: &mut fmt::Formatter<W>) -> fmt::Result {
        match self.reply {
            Some(Ok(Some(accepted))) => write!(f, "{accepted}"),
            Some(Ok(None)) => f.write_str("none"),
            Some(Err(Cause { number, a, b })) => write!(f, "refused={number} a={a} b={b}"),
            None => {
                let line = self.line;
                write!(f, "unread line={line}")
            }
        }
    }
}
