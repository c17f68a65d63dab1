//! Terms of plain polynomials.
ghost use Rattle.std.specs.Prelude.{◌≡◌, length};

/// The greatest total of the exponents of a plain term, 2^41: twice the greatest degree of a monomial, so that a product
/// of two polynomials always fits.
pub const TOTAL_LIMIT: u64 = 1 << 41;

/// A term: a rank times the monomial with these exponents.
#[derive(Clone, Copy, Debug, PartialEq, Eq, PartialOrd, Ord)]
pub struct PlainTerm {
    pub exps: [u64; 8],
    pub rank: u64,
    ghost eight: { length exps ≡ 8 },
}
