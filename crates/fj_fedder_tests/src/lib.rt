//! Tests of F-purity and of compatible ideals. Expected values were worked by hand, or are those of Fedder 1983.
#![tactic(auto)]

#[cfg(test)]
mod given;
#[cfg(test)]
mod rows;
