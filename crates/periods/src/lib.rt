// Two periods: their greatest common divisor, and where steps of both lead.
#![tactic(auto)]

mod divisor;

pub use divisor::gcd;
