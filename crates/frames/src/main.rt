// Reads frames, one to a line, and prints the time that each takes on its link.
#![tactic(auto)]

mod answer;
mod fault;
mod key;
mod line;
mod tally;
mod timed;

use std::io;
use std::io::Read;

// Both programs have these lines. A function over the program's `answer` would have to require that it may be called, and no public
// function here requires anything; a trait for it would be longer than the lines.
fn main(rt: HostRuntime) -> io::Result<()> {
    let heap = rt.alloc();
    let mut input = Vec::new(heap);
    rt.stdin().read_to_end(&mut input)?;
    rt.print(answer::answer(heap, input.as_slice())?)
}
