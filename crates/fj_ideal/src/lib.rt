//! Ideals of polynomials by their reduced Gröbner bases: members, equality, sums and products, with certificates.
#![tactic(auto)]

mod ideal;
mod membership;
mod operations;
mod reduced;
mod tables;
mod thinning;

pub use ideal::Ideal;
pub use operations::kept_pair;
pub use reduced::Reduced;
