//! Products of tables of plain polynomials over a prime field.
ghost use Rattle.std.specs.Prelude.{◌≡◌, ◌≤◌, ◌^◌, All, IfOk, OnOk, length, map, replicate};
ghost use Rattle.std.specs.FinMap.{empty};
ghost use Rattle.fj_theory.specs.Certificate.{AllRanksBelow, AllRowsBelow};
ghost use Rattle.fj_theory.specs.Exponents.{total};
ghost use Rattle.fj_theory.specs.Plain.{HasRanksBelow, polynomial};
ghost use Rattle.fj_theory.specs.Polynomial.{product, sum};
ghost use Rattle.fj_groebner.specs.Rows.{add_multiple, add_multiples, product_of_rows};
ghost use Rattle.fj_basis.specs.Outcome.{TotalsAreLow};

use fj_coeff::Coeff;
use fj_plain::{PlainList, PlainPoly, PlainTable, plain_product, plain_sum};
use fj_poly::GPoly;
use std::alloc::{AllocError, Global};

/// The product of two tables: each row of the first gives the factors of the rows of the second, which are `width` long, in
/// a sum.
pub(crate) fn product_of_tables<K: Coeff>(
    alloc: Global,
    factors: &PlainTable,
    rows: &PlainTable,
    width: usize,
) -> Result<PlainTable, AllocError>
    requires prime { K.SIZE ≡ K.P }
    requires factor_ranks { AllRowsBelow K.field.size factors.now }
    requires factor_totals { All TotalsAreLow factors.now }
    requires ranks { AllRowsBelow K.field.size rows.now }
    requires totals { All TotalsAreLow rows.now }
    requires wide { All (λ row. length row ≡ width) rows.now }
    requires long { All (λ row. length row ≡ length rows.now) factors.now }
    ensures value { IfOk result (λ table. map (map polynomial) table ≡ product_of_rows K.field width (map (map polynomial) factors.now) (map (map polynomial) rows.now)) }
    ensures ranks { IfOk result (AllRowsBelow K.field.size) }
{
    let mut table = Vec::with_capacity(alloc, factors.len())?;
    for i in 0..factors.len() {
        table.push(combine::<K>(alloc, factors.get(i), rows, width)?)?;
    }
    Ok(PlainTable::of(table))
}

/// The sum of the rows of a table, which are `width` long, each times its factor.
fn combine<K: Coeff>(
    alloc: Global,
    factors: &PlainList,
    rows: &PlainTable,
    width: usize,
) -> Result<PlainList, AllocError>
    requires prime { K.SIZE ≡ K.P }
    requires factor_ranks { AllRanksBelow K.field.size factors.now }
    requires factor_totals { TotalsAreLow factors.now }
    requires ranks { AllRowsBelow K.field.size rows.now }
    requires totals { All TotalsAreLow rows.now }
    requires wide { All (λ row. length row ≡ width) rows.now }
    requires long { length factors.now ≡ length rows.now }
    ensures value { IfOk result (λ row. map polynomial row ≡ add_multiples K.field (map polynomial factors.now) (map (map polynomial) rows.now) (replicate width empty)) }
    ensures ranks { IfOk result (AllRanksBelow K.field.size) }
{
    let mut row = zeros::<K>(alloc, width)?;
    for k in 0..rows.len() {
        add_multiple::<K>(alloc, &mut row, factors.get(k), rows.get(k))?;
    }
    Ok(PlainList::of(row))
}

/// A row of zeros.
fn zeros<K: Coeff>(alloc: Global, width: usize) -> Result<Vec<PlainPoly>, AllocError>
    ensures value { IfOk result (λ row. map polynomial row.items ≡ replicate width empty) }
    ensures ranks { IfOk result (λ row. AllRanksBelow K.field.size row.items) }
{
    let mut row = Vec::with_capacity(alloc, width)?;
    for _ in 0..width {
        row.push(GPoly::<K>::zero(alloc).to_plain(alloc)?)?;
    }
    Ok(row)
}

/// Adds f times another row, entry by entry.
fn add_multiple<K: Coeff>(
    alloc: Global,
    row: &mut [PlainPoly],
    f: &PlainPoly,
    other: &PlainList,
) -> Result<(), AllocError>
    requires prime { K.SIZE ≡ K.P }
    requires row_ranks { AllRanksBelow K.field.size row.old }
    requires factor_ranks { HasRanksBelow K.field.size f.now }
    requires factor_totals { All (λ t. total t.0 ≤ 2 ^ 40) f.now.terms }
    requires ranks { AllRanksBelow K.field.size other.now }
    requires totals { TotalsAreLow other.now }
    requires long { length other.now ≡ length row.old }
    ensures value { OnOk result (map polynomial row.new ≡ add_multiple K.field (polynomial f.now) (map polynomial row.old) (map polynomial other.now)) }
    ensures ranks { OnOk result (AllRanksBelow K.field.size row.new) }
{
    for j in 0..row.len() {
        row[j] = plus_product::<K>(alloc, &row[j], f, other.get(j))?;
    }
    Ok(())
}

/// The sum x + f*y. No total of f and y is above 2^40, so that none of the product is above 2^41.
fn plus_product<K: Coeff>(
    alloc: Global,
    x: &PlainPoly,
    f: &PlainPoly,
    y: &PlainPoly,
) -> Result<PlainPoly, AllocError>
    requires prime { K.SIZE ≡ K.P }
    requires summand_ranks { HasRanksBelow K.field.size x.now }
    requires factor_ranks { HasRanksBelow K.field.size f.now }
    requires factor_totals { All (λ t. total t.0 ≤ 2 ^ 40) f.now.terms }
    requires ranks { HasRanksBelow K.field.size y.now }
    requires totals { All (λ t. total t.0 ≤ 2 ^ 40) y.now.terms }
    ensures value { IfOk result (λ h. polynomial h ≡ sum K.field (polynomial x.now) (product K.field (polynomial f.now) (polynomial y.now))) }
    ensures ranks { IfOk result (HasRanksBelow K.field.size) }
{
    let product = plain_product(alloc, K::P, f, y)?;
    let product = PlainPoly::of(product, K::P).unwrap();
    let sum = plain_sum(alloc, K::P, x, &product)?;
    Ok(PlainPoly::of(sum, K::P).unwrap())
}
