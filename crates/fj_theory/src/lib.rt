//! What the contracts of the calculator cite: exponents, monomial orders, polynomials as finite maps, their parts, ideals,
//! Frobenius powers and roots, meets and quotients, values at points, splittings and compatible ideals, leads, plain
//! polynomials and certificates, fractions, digits and candidates. `specs/` holds the definitions, each with its source, and
//! `proofs/` the laws that the crates above cite. `docs/DEFINITIONS.md` has the definitions in words.
#![tactic(auto)]

pub mod colons;
pub mod laws;
pub mod points;
pub mod polynomials;
pub mod splittings;
