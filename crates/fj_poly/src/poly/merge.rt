//! The merge of two falling lists of terms.

ghost use Rattle.std.specs.Prelude.{◌≡◌, OnOk};
ghost use Rattle.std.specs.FinMap.{from_entries};
ghost use Rattle.fj_theory.specs.Polynomial.{IsFalling, sum};
ghost use Rattle.fj_poly.specs.Terms.{AreTerms, entries};

use super::Term;
use fj_coeff::Coeff;
use fj_mono::Order;
use std::alloc::AllocError;
use std::cmp::Ordering;

/// Fills a list, emptied first, with the terms of the sum of two polynomials, given by their falling lists of terms.
pub(crate) fn merge_terms<K: Coeff, O: Order>(
    terms: &mut Vec<Term<K>>,
    one: &[Term<K>],
    other: &[Term<K>],
) -> Result<(), AllocError>
    requires one_falls { IsFalling O.key (entries K.rank one.now) }
    requires one_terms { AreTerms K.field (entries K.rank one.now) }
    requires other_falls { IsFalling O.key (entries K.rank other.now) }
    requires other_terms { AreTerms K.field (entries K.rank other.now) }
    ensures value { OnOk result (from_entries (entries K.rank terms.new.items) ≡ sum K.field (from_entries (entries K.rank one.now)) (from_entries (entries K.rank other.now))) }
    ensures falls { OnOk result (IsFalling O.key (entries K.rank terms.new.items)) }
    ensures terms { OnOk result (AreTerms K.field (entries K.rank terms.new.items)) }
{
    let mut left = one;
    let mut right = other;
    terms.clear();
    'merge: while let (Some((first, others)), Some((second, more))) = (
        left.split_first(),
        right.split_first(),
    ) {
        match O::cmp(&first.monomial, &second.monomial) {
            Ordering::Greater => {
                terms.push(*first)?;
                left = others;
            }
            Ordering::Less => {
                terms.push(*second)?;
                right = more;
            }
            Ordering::Equal => {
                let coefficient = first.coefficient.add(second.coefficient);
                if coefficient != K::zero() {
                    terms.push(Term {
                        coefficient,
                        monomial: first.monomial,
                    })?;
                }
                left = others;
                right = more;
            }
        }
    }
    terms.extend_from_slice(left)?;
    terms.extend_from_slice(right)?;
    Ok(())
}
