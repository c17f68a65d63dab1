//! Fractions in lowest terms, their digits in a base p, and the candidates for jumping numbers.
#![tactic(auto)]

mod candidate_list;
mod digits;
pub mod laws;
mod ratio;

pub use candidate_list::candidates;
pub use digits::Digits;
pub use ratio::{Ratio, RatioFault};
