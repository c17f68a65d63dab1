//! The grammar of sessions over tokens, each session with its meaning, and the theorems that tie the rules that `read_script`
//! follows to it: what is accepted, and which fault is reported. `specs/` holds the grammar and the statements, and `proofs/` the
//! proofs.
#![tactic(auto)]

pub mod laws;
