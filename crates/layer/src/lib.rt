// Books over other books: each hands its windows to the book below in another form.
#![tactic(auto)]

mod grain;
mod layer;
mod per_link;
mod rest;
mod view;

pub use grain::{Grain, GrainLayer};
pub use layer::Layer;
pub use per_link::PerLink;
pub use rest::{Extra, RestLayer};
pub use view::View;
