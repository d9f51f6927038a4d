// The book of windows: what a book means, whoever keeps it.
#![tactic(auto)]

mod book;
mod cases;
mod emptiness;
mod fault;
mod numbered;
mod range;
mod span;
mod window;

pub use book::Book;
pub use cases::{WorkedCase, worked_cases};
pub use emptiness::holds_windows;
pub use fault::{BookFault, Cause, MakeFault};
pub use numbered::Numbered;
pub use range::{LAST_LINK, LAST_WINDOW, is_link, is_window};
pub use span::Span;
pub use window::Window;
