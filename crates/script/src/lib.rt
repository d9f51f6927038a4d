// A script of calls on a book: what its lines say.
#![tactic(auto)]

mod line;
mod order;

pub use line::read_line;
pub use order::{Call, NoSuchPile, Order, Pile};
