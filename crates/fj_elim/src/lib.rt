//! Meets and quotients of ideals, by elimination of the eighth variable.
#![tactic(auto)]

mod bases;
mod colons;
mod elimination;
mod list;

pub use bases::colon_basis;
pub use colons::{colon, colon_by};
pub use elimination::{drop_t, lacks_eighth, meet};
