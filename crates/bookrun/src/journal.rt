// The text of a run as far as it is written.
ghost use Rattle.std.specs.Prelude.{◌≡◌, ◌+◌, ◌≤◌, [], ◌∷◌, ◌++◌, List, length, IfOk, string_bytes};

use crate::reply::{Answered, Reply};
use crate::tally::Tally;
use std::alloc::Global;
use std::fmt;

// The lines that answer a script so far: their text, how many they are, and the count of their replies. No count is above the
// number of lines, and that is not above the number of bytes, so none of them ever outgrows its type. The number of lines is
// that of the calls and the unread lines; it has a field, since each line is told by it, and a sum at each would be no plainer.
#[derive(Drop)]
pub struct Journal {
    pub text: String,
    pub lines: u64,
    pub tally: Tally,
    ghost short: { lines ≤ length (string_bytes text) },
    ghost calls: { tally.calls + tally.unread ≤ lines },
    ghost accepted: { tally.accepted ≤ tally.calls },
    ghost refused: { tally.refused ≤ tally.calls },
}

impl Journal {
    ghost use Rattle.bookrun.specs.Journals.{Records};
    ghost use Rattle.bookrun.specs.Printed.{line, counted, tally_text};
    ghost use Rattle.bookrun.specs.Replies.{answer_text};

    // The journal of no line.
    pub fn new(heap: Global) -> Journal
        ensures { Records [] result }
    {
        Journal {
            text: String::new(heap),
            lines: 0,
            tally: Tally::default(),
        }
    }

    // Writes the reply to the next line, and counts it. Which replies there were before is for the caller to say: a ghost field
    // holds a fact, and no list.
    pub fn write(self, reply: Option<Reply>) -> Result<Journal, fmt::Error>
        ensures text { IfOk result (λ written. string_bytes written.text ≡ string_bytes self.text ++ line (answer_text (self.lines + 1) reply)) }
        ensures lines { IfOk result (λ written. written.lines ≡ self.lines + 1) }
        ensures tally { IfOk result (λ written. written.tally ≡ counted reply self.tally) }
        ensures records { (before : _) → Records before self → IfOk result (Records (before ++ (reply ∷ []))) }
    {
        let Journal {
            mut text,
            lines,
            mut tally,
        } = self;
        let line = lines + 1;
        let answered = Answered { line, reply };
        writeln!(text, "{answered}")?;
        tally.count(reply);
        Ok(Journal {
            text,
            lines: line,
            tally,
        })
    }

    // The whole text, with the count of the replies at its end.
    pub fn close(self) -> Result<String, fmt::Error>
        ensures { IfOk result (λ text. string_bytes text ≡ string_bytes self.text ++ line (tally_text self.tally)) }
    {
        let Journal {
            mut text,
            tally,
            ..
        } = self;
        writeln!(text, "{tally}")?;
        Ok(text)
    }
}

#[cfg(test)]
mod tests {
    use super::*;
    use crate::reply::Accepted;
    use book::Cause;
    use std::test::Fail;

    // An accepted call, a refused one and a line that cannot be read.
    #[test]
    fn three_lines(rt: HostRuntime) -> Result<(), Fail> {
        let cause = Cause {
            number: 9,
            a: 0,
            b: 0,
        };
        let journal = Journal::new(rt.alloc())
            .write(Some(Ok(Some(Accepted::Holds(7)))))?
            .write(Some(Err(cause)))?
            .write(None)?;
        let text =
            "number=7\nrefused=9 a=0 b=0\nunread line=3\ncalls=2 accepted=1 refused=1 unread=1\n";
        assert_eq!(rt; journal.close()?.as_str(), text);
        Ok(())
    }

    #[test]
    fn no_line(rt: HostRuntime) -> Result<(), Fail> {
        let text = "calls=0 accepted=0 refused=0 unread=0\n";
        assert_eq!(rt; Journal::new(rt.alloc()).close()?.as_str(), text);
        Ok(())
    }
}
