//! Parts of polynomials over q-th powers, Frobenius roots and Frobenius powers of ideals, q a power of the
//! characteristic.
#![tactic(auto)]

mod frobenius_power;
mod part;
mod root;

pub use frobenius_power::frob_power;
pub use part::{Part, parts};
pub use root::{root_gens, root_list};
