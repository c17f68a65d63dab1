//! Plain polynomials, their sum and product apart from every monomial order, and certificates.
#![tactic(auto)]

mod arithmetic;
mod cert;
mod identity;
mod lists;
mod order_name;
mod packing;
mod plain;
mod ranks;
mod tally;
mod term;

pub use arithmetic::{plain_product, plain_sum};
pub use cert::{Cert, holds};
pub use lists::{Kept, PlainList, PlainPoint, PlainTable};
pub use order_name::OrderName;
pub use plain::PlainPoly;
pub use term::{PlainTerm, TOTAL_LIMIT};
