//! Tests of nu and of F-thresholds. Expected values were worked by hand, or are those of Mustață, Takagi and Watanabe 2005.
#![tactic(auto)]

#[cfg(test)]
mod rows;
