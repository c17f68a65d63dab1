//! Test ideals of f^t, F-jumping numbers and F-thresholds: the definitions that the calculator's contracts cite, and the
//! theorems over them. `specs/` holds the definitions, each with its source, and `proofs/` the proofs of the theorems.
//! `docs/DEFINITIONS.md` has the definitions in words.
#![tactic(auto)]

pub mod chains;
pub mod examples;
pub mod jumps;
pub mod leads;
pub mod lists;
pub mod periods;
pub mod test_ideals;
pub mod thresholds;
