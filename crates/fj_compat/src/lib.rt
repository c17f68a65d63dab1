//! Ideals that are compatible with a polynomial.
#![tactic(auto)]

mod compatibility;
mod products;

pub use compatibility::compatible;
