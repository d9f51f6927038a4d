// The network of a site: what its links, tasks and messages are, and what follows from their numbers.
#![tactic(auto)]

mod frame;
mod range;

pub use frame::Frame;
pub use range::{Quantity, Range};
