//! Tests of test ideals, their limits from the left and F-jumping numbers. Expected values were worked by hand.
#![tactic(auto)]

#[cfg(test)]
mod rows;
