//! Test ideals of a polynomial at fractions, their limits from the left, and F-jumping numbers, by chains of Frobenius roots:
//! one step for each digit of the exponent (Blickle, Mustață and Smith 2008).
#![tactic(auto)]

mod chain;
mod limits;
mod multiples;
mod steps;

pub use chain::{chain_from, falling, rising};
pub use limits::{is_jump, left_limit, reduced_left_limit, reduced_test_ideal, test_ideal};
pub use steps::{follow, step};
