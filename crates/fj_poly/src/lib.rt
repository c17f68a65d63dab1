//! Polynomials in eight variables over a coefficient field, as sorted lists of terms.
#![tactic(auto)]

mod buckets;
mod fault;
mod poly;

pub use buckets::Buckets;
pub use fault::PolyFault;
pub use poly::point::Point;
pub use poly::{GPoly, Poly};
