//! Rows of cofactors: zeros, one polynomial of the list, multiples and sums.
ghost use Rattle.std.specs.Prelude.{◌≡◌, ◌<◌, IfOk, OnOk, All, length, map, replicate, set};
ghost use Rattle.std.specs.FinMap.{empty};
ghost use Rattle.fj_theory.specs.Exponents.{origin};
ghost use Rattle.fj_theory.specs.Ideal.{ArePolynomials};
ghost use Rattle.fj_theory.specs.Polynomial.{product, term};
ghost use Rattle.fj_groebner.specs.Rows.{add_multiple};
ghost use Rattle.fj_poly.specs.Limit.{IsHigh};
ghost use Rattle.fj_basis.specs.Outcome.{IsHighOnlyWhere};

use crate::members::Row;
use fj_coeff::Coeff;
use fj_mono::{Mono, Order};
use fj_poly::{Poly, PolyFault};
use std::alloc::{AllocError, Global};

/// A row of zeros.
pub(crate) fn zero_row<K: Coeff, O: Order>(
    alloc: Global,
    count: usize,
) -> Result<Row<K, O>, AllocError>
    ensures { IfOk result (λ row. row.items ≡ replicate count empty) }
{
    let mut row = Vec::with_capacity(alloc, count)?;
    for _ in 0..count {
        row.push(Poly::zero(alloc))?;
    }
    Ok(row)
}

/// The row of c times the polynomial at place j.
pub(crate) fn row_of_one<K: Coeff, O: Order>(
    alloc: Global,
    c: K,
    j: usize,
    count: usize,
) -> Result<Row<K, O>, AllocError>
    requires { j < count }
    ensures { IfOk result (λ row. row.items ≡ set (replicate count empty) j (term (K.rank c) origin)) }
{
    let mut row = zero_row(alloc, count)?;
    row[j] = Poly::term(alloc, c, &Mono::one())?;
    Ok(row)
}

/// Adds f times another row, entry by entry. No product has a term above the limit.
pub(crate) fn add_multiple<K: Coeff, O: Order>(
    alloc: Global,
    row: &mut [Poly<K, O>],
    f: &Poly<K, O>,
    other: &[Poly<K, O>],
) -> Result<(), PolyFault>
    requires row { ArePolynomials K.field row.old }
    requires other { ArePolynomials K.field other.now }
    requires long { length other.now ≡ length row.old }
    requires within { All (λ y. IsHigh (product K.field f.now y) → ⊥) other.now }
    ensures value { OnOk result (row.new ≡ add_multiple K.field f.now row.old other.now) }
    ensures high { IsHighOnlyWhere ⊥ result }
{
    for j in 0..row.len() {
        if !other[j].is_zero() {
            row[j] = row[j].add(alloc, &f.mul(alloc, &other[j])?)?;
        }
    }
    Ok(())
}

/// The row times f. No product has a term above the limit.
pub(crate) fn times_row<K: Coeff, O: Order>(
    alloc: Global,
    f: &Poly<K, O>,
    row: &[Poly<K, O>],
) -> Result<Row<K, O>, PolyFault>
    requires within { All (λ y. IsHigh (product K.field f.now y) → ⊥) row.now }
    ensures value { IfOk result (λ product_row. product_row.items ≡ map (product K.field f.now) row.now) }
    ensures high { IsHighOnlyWhere ⊥ result }
{
    let mut products = Vec::with_capacity(alloc, row.len())?;
    for y in row {
        products.push(f.mul(alloc, y)?)?;
    }
    Ok(products)
}
