//! Which powers of a polynomial are in the Frobenius powers of an ideal: the numbers nu, and F-thresholds
//! (Mustață, Takagi and Watanabe 2005; Blickle, Mustață and Smith 2008).
#![tactic(auto)]

mod digits;
mod point;
mod powers;
mod search;
pub mod types;

pub use point::threshold_at;
pub use powers::nu;
pub use search::threshold;
