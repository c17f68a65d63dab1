//! Rows of cofactors over the given list, formed at the end of a calculation from how its polynomials were made.
ghost use Rattle.std.specs.Prelude.{◌≡◌, ◌<◌, ◌≤◌, ℕ, true, List, IfOk, All, length, map};
ghost use Rattle.std.specs.FinMap.{empty};
ghost use Rattle.fj_theory.specs.Ideal.{ArePolynomials};
ghost use Rattle.fj_groebner.specs.Division.{Sugared};
ghost use Rattle.fj_basis.specs.Forming.{AreCombined, AreInOrder, AreMarked, AreNeeded, AreRowsFrom, CanBeCombined, CanBeFormed, IsMade, IsMadeWithRows, IsMarked, UsesBelow};
ghost use Rattle.fj_basis.specs.History.{AreMade, combined, polynomial_at};
ghost use Rattle.fj_basis.specs.Members.{IsRowWithin};
ghost use Rattle.fj_basis.specs.Outcome.{IsHighOnlyWhere};

use crate::cofactors::{add_multiple, row_of_one, times_row, zero_row};
use crate::history::{Making, Source, Summand};
use crate::members::Row;
use fj_coeff::Coeff;
use fj_mono::Order;
use fj_poly::{Poly, PolyFault};
use std::alloc::{AllocError, Global};

/// The cofactors over the list of the polynomials from a place on. Those of an earlier polynomial are formed only where they
/// are used.
pub(crate) fn rows_from<K: Coeff, O: Order>(
    alloc: Global,
    list: &[Poly<K, O>],
    makings: &[Making<K, O>],
    from: usize,
) -> Result<Vec<Row<K, O>>, PolyFault>
    requires list { ArePolynomials K.field list.now }
    requires made { IsMade K.field list.now makings.now }
    requires from { from ≤ length makings.now }
    ensures value { IfOk result (λ rows. (G : List Sugared) → AreMade K.field list.now G makings.now → AreRowsFrom K.field list.now G from (map (λ row. row.items) rows.items)) }
    ensures high { IsHighOnlyWhere ⊥ result }
{
    let needed = needed(alloc, makings, from)?;
    let mut rows = Vec::with_capacity(alloc, makings.len())?;
    for k in 0..makings.len() {
        let row = row_if_needed(alloc, list, &makings[k], needed[k], &rows)?;
        rows.push(row)?;
    }
    Ok(rows.split_off(from)?)
}

// The cofactors of a polynomial that was made so, or none where they aren't needed.
fn row_if_needed<K: Coeff, O: Order>(
    alloc: Global,
    list: &[Poly<K, O>],
    making: &Making<K, O>,
    is_needed: bool,
    rows: &[Row<K, O>],
) -> Result<Row<K, O>, PolyFault>
    requires list { ArePolynomials K.field list.now }
    requires made { is_needed ≡ true → CanBeFormed K.field list.now (map (λ row. row.items) rows.now) making.now }
    ensures value { IfOk result (λ row. is_needed ≡ true → (G : List Sugared) (g : Sugared) → IsMadeWithRows K.field list.now G g (map (λ row. row.items) rows.now) making.now → IsRowWithin K.field list.now g row.items) }
    ensures high { IsHighOnlyWhere ⊥ result }
{
    if is_needed {
        row_of(alloc, list, making, rows)
    } else {
        Ok(Vec::new(alloc))
    }
}

// For each polynomial whether it is used by those from the place on, or is one of them.
fn needed<K: Coeff, O: Order>(
    alloc: Global,
    makings: &[Making<K, O>],
    from: usize,
) -> Result<Vec<bool>, AllocError>
    requires { AreInOrder makings.now }
    ensures { IfOk result (λ needed. AreNeeded makings.now from needed.items) }
{
    let mut needed = places_from(alloc, makings.len(), from)?;
    let mut k = makings.len();
    while k > 0 {
        k -= 1;
        if needed[k] {
            mark_uses(&makings[k].source, &mut needed);
        }
    }
    Ok(needed)
}

// For each place up to a number whether it is one from `from` on.
fn places_from(alloc: Global, count: usize, from: usize) -> Result<Vec<bool>, AllocError>
    ensures long { IfOk result (λ marks. length marks.items ≡ count) }
    ensures asked { IfOk result (λ marks. (k : ℕ) → from ≤ k → k < count → IsMarked marks.items k) }
{
    let mut marks = Vec::with_capacity(alloc, count)?;
    for k in 0..count {
        marks.push(k >= from)?;
    }
    Ok(marks)
}

// Marks the places of the polynomials that the source combines.
fn mark_uses<K: Coeff, O: Order>(source: &Source<K, O>, marks: &mut [bool])
    requires { UsesBelow (length marks.old) source.now }
    ensures long { length marks.new ≡ length marks.old }
    ensures marked { AreMarked marks.new source.now }
    ensures kept { (k : ℕ) → IsMarked marks.old k → IsMarked marks.new k }
    ensures beyond { (n k : ℕ) → UsesBelow n source.now → n ≤ k → IsMarked marks.new k → IsMarked marks.old k }
{
    if let Source::Combined(summands) = source {
        mark_places(summands, marks);
    }
}

// Marks the places of the summands.
fn mark_places<K: Coeff, O: Order>(summands: &[Summand<K, O>], marks: &mut [bool])
    requires { All (λ s. s.place < length marks.old) summands.now }
    ensures long { length marks.new ≡ length marks.old }
    ensures marked { All (λ s. IsMarked marks.new s.place) summands.now }
    ensures kept { (k : ℕ) → IsMarked marks.old k → IsMarked marks.new k }
    ensures beyond { (n k : ℕ) → All (λ s. s.place < n) summands.now → n ≤ k → IsMarked marks.new k → IsMarked marks.old k }
{
    for summand in summands {
        marks[summand.place] = true;
    }
}

// The cofactors of a polynomial that was made so, from those of what it is made of.
fn row_of<K: Coeff, O: Order>(
    alloc: Global,
    list: &[Poly<K, O>],
    making: &Making<K, O>,
    rows: &[Row<K, O>],
) -> Result<Row<K, O>, PolyFault>
    requires list { ArePolynomials K.field list.now }
    requires made { CanBeFormed K.field list.now (map (λ row. row.items) rows.now) making.now }
    ensures value { IfOk result (λ row. (G : List Sugared) (g : Sugared) → IsMadeWithRows K.field list.now G g (map (λ row. row.items) rows.now) making.now → IsRowWithin K.field list.now g row.items) }
    ensures high { IsHighOnlyWhere ⊥ result }
{
    let source = match &making.source {
        Source::Given(j) => row_of_one(alloc, K::one(), *j, list.len())?,
        Source::Combined(summands) => combined_row(alloc, list, summands, rows)?,
    };
    times_row(alloc, &making.constant, &source)
}

// The sum of the rows of what is combined, each times its factor.
fn combined_row<K: Coeff, O: Order>(
    alloc: Global,
    list: &[Poly<K, O>],
    summands: &[Summand<K, O>],
    rows: &[Row<K, O>],
) -> Result<Row<K, O>, PolyFault>
    requires list { ArePolynomials K.field list.now }
    requires combined { CanBeCombined K.field list.now (map (λ row. row.items) rows.now) summands.now }
    ensures value { IfOk result (λ row. (G : List Sugared) (bound : ℕ) → AreCombined K.field list.now G bound (map (λ row. row.items) rows.now) summands.now → IsRowWithin K.field list.now (record { polynomial = combined K.field (polynomial_at G) empty summands.now; sugar = bound }) row.items) }
    ensures high { IsHighOnlyWhere ⊥ result }
{
    let mut row = zero_row(alloc, list.len())?;
    for summand in summands {
        add_multiple(alloc, &mut row, &summand.factor, &rows[summand.place])?;
    }
    Ok(row)
}
