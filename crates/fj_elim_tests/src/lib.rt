//! Tests of meets and quotients of ideals. Expected values were worked by hand.
#![tactic(auto)]

#[cfg(test)]
mod rows;
