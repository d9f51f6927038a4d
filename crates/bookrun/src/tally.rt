// What was done, in one line.
ghost use Rattle.std.specs.Prelude.{◌≡◌, ◌+◌, ◌^◌, ◌<◌, Some};
ghost use Rattle.bookrun.specs.Printed.{tally_text, counted};

use crate::reply::Reply;
use std::fmt;

// How many calls there were, how many of them were accepted and refused, and how many lines could not be read.
#[derive(Clone, Copy, Default)]
pub struct Tally {
    pub calls: u64,
    pub accepted: u64,
    pub refused: u64,
    pub unread: u64,
}

impl Tally {
    // Counts one reply more, none for a line that could not be read.
    pub(crate) fn count(&mut self, reply: Option<Reply>)
        requires { (self.old.calls + 1 < 2 ^ 64) × (self.old.accepted + 1 < 2 ^ 64) × (self.old.refused + 1 < 2 ^ 64) × (self.old.unread + 1 < 2 ^ 64) }
        ensures { self.new ≡ counted reply self.old }
    {
        let Some(reply) = reply else {
            self.unread += 1;
            return;
        };
        self.calls += 1;
        match reply {
            Ok(_) => self.accepted += 1,
            Err(_) => self.refused += 1,
        }
    }
}

impl fmt::Display for Tally {
    ghost output = { λ t. Some (tally_text t) };

    fn fmt<W: fmt::Write>(&self, f: &mut fmt::Formatter<W>) -> fmt::Result {
        let Tally {
            calls,
            accepted,
            refused,
            unread,
        } = *self;
        write!(
            f,
            "calls={calls} accepted={accepted} refused={refused} unread={unread}"
        )
    }
}
