//! Division of polynomials, reduced Gröbner bases by Buchberger's algorithm with cofactors both ways, and their
//! certificates.
#![tactic(auto)]

mod buchberger;
mod certificate;
mod cofactors;
mod division;
mod divisor;
mod finishing;
mod forming;
mod history;
mod leads;
mod members;
mod pair_member;
mod pairs;
mod pending;
mod run;
mod stop;
mod sugar;
mod sugared_pairs;
mod sugared_rows;
mod sugared_run;
pub mod types;

pub use buchberger::{basis, reduced_basis};
pub use certificate::{kept, plain_list};
pub use division::divide;
pub use leads::Leads;
pub use stop::Stop;
pub use sugar::look_over;
pub use types::copy_list;
