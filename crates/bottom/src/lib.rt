// Books that keep their windows themselves.
#![tactic(auto)]

mod formula;
mod ground;
mod ledger;
mod meeting;

pub use formula::FormulaBook;
pub use ground::Ground;
