//! Generated sessions: for each n from 1 to 1,000 a session of n polynomials x^A + y^B, each with two questions.
#![tactic(auto)]

pub mod laws;
mod made;

pub use made::made_script;
