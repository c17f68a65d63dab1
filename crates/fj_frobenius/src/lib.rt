//! Frobenius powers and Frobenius roots of ideals by their reduced Gröbner bases.
#![tactic(auto)]

mod certificate;
mod power;
mod root;

pub use certificate::root_cert;
pub use power::{frobenius_power, reduced_frobenius_power};
pub use root::{frobenius_root, reduced_root_of_multiples, root_of_multiples};
