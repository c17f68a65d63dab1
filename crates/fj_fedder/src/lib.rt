//! F-purity of the polynomials modulo an ideal, by Fedder's criterion.
#![tactic(auto)]

mod purity;
mod splitting;

pub use purity::{PureAt, is_pure, is_pure_at};
pub use splitting::split_ideal;
