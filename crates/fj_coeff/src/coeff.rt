//! Finite fields, each element by its rank.
ghost use Rattle.std.specs.Prelude.{◌≡◌, ◌≢◌, ◌<◌, ◌↔◌, ◌==◌, ℕ, Bool};
ghost use Rattle.fj_coeff.specs.Field.{Field, IsField};

/// A finite field whose elements are numbered from 0 to `SIZE - 1`. The number of an element is its rank: zero has
/// rank 0, one has rank 1, and for r below `P` the element of rank r is the sum of r ones.
///
/// Contracts see a value as its rank. The laws make `Coeff` the coefficients of polynomials in characteristic `P`, with
/// a `P`-th root of each element, which Frobenius roots need (Blickle, Mustață and Smith 2008, over perfect fields).
pub trait Coeff: Copy + Eq {
    /// The operations, as functions of ranks.
    ghost field: { Field };

    /// The rank of a value.
    ghost rank: { Self → ℕ };

    ghost P: { ℕ };

    ghost SIZE: { ℕ };

    /// The characteristic, one of `PRIMES`.
    const P: u64;

    /// The number of elements.
    const SIZE: u64;

    /// Zero, of rank 0.
    fn zero() -> Self
        ensures { rank result ≡ 0 };

    /// One, of rank 1.
    fn one() -> Self
        ensures { rank result ≡ 1 };

    /// The sum.
    fn add(self, o: Self) -> Self
        ensures { rank result ≡ field.add (rank self) (rank o) };

    /// The negative.
    fn neg(self) -> Self
        ensures { rank result ≡ field.neg (rank self) };

    /// The product.
    fn mul(self, o: Self) -> Self
        ensures { rank result ≡ field.mul (rank self) (rank o) };

    /// The inverse of a value that isn't zero.
    fn inv(self) -> Self
        requires { rank self ≢ 0 }
        ensures { rank result ≡ field.inverse (rank self) };

    /// The `P`-th root.
    fn root(self) -> Self
        ensures { rank result ≡ field.root (rank self) };

    /// The rank, a number below `SIZE`.
    fn rank(self) -> u64
        ensures { result ≡ rank self };

    /// The value of rank r.
    fn of_rank(r: u64) -> Self
        requires { r < field.size }
        ensures { rank result ≡ r };

    ghost lawful: { IsField field };

    ghost characteristic_is: { P ≡ field.characteristic };

    ghost size_is: { SIZE ≡ field.size };

    ghost rank_below: { (c : Self) → rank c < field.size };

    ghost same_rank: { (c d : Self) → rank c ≡ rank d → c ≡ d };

    ghost eq_is_rank: { (c d : Self) → Self.eq c d ≡ (rank c == rank d) };
}
