// A frame with the time that it takes.
ghost use Rattle.std.specs.Prelude.{◌≡◌, Some};
ghost use Rattle.frames.specs.Answer.{time_line};
ghost use Rattle.frames.specs.Texts.{timed_text};

use crate::fault::Fault;
use crate::line::read_line;
use network::Frame;
use std::fmt;

#[derive(Clone, Copy)]
pub struct Timed {
    pub frame: Frame,
    pub steps: u64,
    pub micros: u64,
}

impl fmt::Display for Timed {
    ghost output = { λ t. Some (timed_text t) };

    fn fmt<W: fmt::Write>(&self, f: &mut fmt::Formatter<W>) -> fmt::Result {
        let Frame { size, rate, grain } = self.frame;
        let steps = self.steps;
        let micros = self.micros;
        write!(
            f,
            "size={size} rate={rate} grain={grain} steps={steps} us={micros}"
        )
    }
}

// The frame that a line asks about, with its time.
pub fn time_line(line: &[u8]) -> Result<Timed, Fault>
    ensures { result ≡ time_line line.now }
{
    let frame = read_line(line)?;
    let steps = frame.steps().unwrap();
    let micros = frame.micros().unwrap();
    Ok(Timed {
        frame,
        steps,
        micros,
    })
}
