//! Tests of the public calls on fields, monomials, fractions, plain polynomials, certificates, polynomials, parts, roots,
//! bases and ideals. Expected values come from textbooks or were worked by hand.
#![tactic(auto)]

#[cfg(test)]
mod bases;
#[cfg(test)]
mod buckets;
#[cfg(test)]
mod certificates;
#[cfg(test)]
mod fields;
#[cfg(test)]
mod fractions;
#[cfg(test)]
mod frobenius;
#[cfg(test)]
mod ideals;
#[cfg(test)]
mod made_certificates;
#[cfg(test)]
mod monomials;
#[cfg(test)]
mod plain_polynomials;
#[cfg(test)]
mod polynomials;
#[cfg(test)]
mod reduced;
#[cfg(test)]
mod roots;
#[cfg(test)]
mod rows;
