//! Tests of generated sessions: their bytes, and that they are read.
#![tactic(auto)]

#[cfg(test)]
mod generated;
