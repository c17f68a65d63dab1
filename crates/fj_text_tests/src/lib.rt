//! Tests of what is read and printed: expressions, names, the texts of values, and sessions with their first faults.
#![tactic(auto)]

#[cfg(test)]
mod expressions;
#[cfg(test)]
mod named_results;
#[cfg(test)]
mod names;
#[cfg(test)]
mod printed;
#[cfg(test)]
mod sessions;
