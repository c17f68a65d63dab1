//! Coefficient fields: the trait `Coeff` of finite fields on ranks, GF(p) for the primes up to 31, and the choice of the
//! field for a prime. Nothing here takes memory.
#![tactic(auto)]

mod choice;
mod coeff;
mod prime;
mod table;

pub use choice::{OverField, over_prime_field};
pub use coeff::Coeff;
pub use prime::Fp;
pub use table::{PRIMES, Primes, TablePrime, is_prime};
