//! Laws of commutative algebra in characteristic p, over any commutative ring. There is no program code here:
//! `specs/` holds the definitions and `proofs/` the laws that the crates above cite.
#![tactic(auto)]
