//! A plain, slow program for sums, products, parts, roots and reduced bases of small polynomials, written from the words of
//! the definitions and without any code of the other crates but the fields. Its results are compared with rows that were
//! worked by hand.
#![tactic(auto)]

#[cfg(test)]
mod tests;
