//! Monomials in eight variables and their orders. Nothing here takes memory.
#![tactic(auto)]

mod mono;
mod order;

pub use mono::{DEGREE_LIMIT, High, Mono};
pub use order::{Elim, Grevlex, Grlex, Lex, Order};
