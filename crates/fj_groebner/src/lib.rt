//! Reduced Gröbner bases of ideals of polynomials, division by a list, the run that makes a reduced basis, with its sugar
//! degrees and the criteria by which pairs are left out, and meets and quotients by elimination. `specs/` holds the
//! definitions, each with its source, and `proofs/` the laws that the crates above cite. `docs/DEFINITIONS.md` has the
//! definitions in words.
#![tactic(auto)]

pub mod bases;
pub mod eliminations;
