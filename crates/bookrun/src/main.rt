// Runs a script of calls on a book of windows and prints an answer line for each.
#![tactic(auto)]

mod answer;
mod journal;
mod opening;
mod perform;
mod reply;
mod tally;

use std::io;
use std::io::Read;

// Both programs have these lines. A function over the program's `answer` would have to require that it may be called, and no public
// function here requires anything; a trait for it would be longer than the lines.
fn main(rt: HostRuntime) -> io::Result<()> {
    let heap = rt.alloc();
    let mut script = Vec::new(heap);
    rt.stdin().read_to_end(&mut script)?;
    rt.print(answer::answer(heap, script.as_slice())?)
}
