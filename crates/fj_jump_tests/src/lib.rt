//! Tests of searches for F-jumping numbers, and of the limits that they ask for. Expected values were worked by hand.
#![tactic(auto)]

#[cfg(test)]
mod evaluations;
#[cfg(test)]
mod rows;
#[cfg(test)]
mod searches;
