// The bytes of a text: its front, its lines and its decimal numbers.
#![tactic(auto)]

mod front;
mod lines;
mod numbers;

pub use front::after_front;
pub use lines::{Lines, cut_line};
pub use numbers::{NumberFault, number};
