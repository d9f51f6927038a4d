// What was done, in one line.
ghost use Rattle.std.specs.Prelude.{Some};
ghost use Rattle.frames.specs.Texts.{tally_text};

use std::fmt;

// How many frames were timed, and their µs in all.
#[derive(Clone, Copy, Default)]
pub struct Tally {
    pub frames: usize,
    pub micros: u128,
}

impl fmt::Display for Tally {
    ghost output = { λ t. Some (tally_text t) };

    fn fmt<W: fmt::Write>(&self, f: &mut fmt::Formatter<W>) -> fmt::Result {
        let frames = self.frames;
        let micros = self.micros;
        write!(f, "frames={frames} us={micros}")
    }
}
