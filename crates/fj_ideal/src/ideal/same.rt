//! Certificates that two ideals are one.
ghost use Rattle.std.specs.Prelude.{◌≡◌, IfOk, map};
ghost use Rattle.fj_theory.specs.Certificate.{AllRowsBelow};
ghost use Rattle.fj_theory.specs.Ideal.{SameIdeal};
ghost use Rattle.fj_theory.specs.Plain.{polynomial};
ghost use Rattle.fj_groebner.specs.Rows.{AreRows};
ghost use Rattle.fj_plain.specs.Holds.{Holds};
ghost use Rattle.fj_ideal.specs.Same.{IsSameCertificateOf};

use super::Ideal;
use crate::tables::product_of_tables;
use fj_basis::plain_list;
use fj_coeff::Coeff;
use fj_plain::{Cert, PlainTable};
use std::alloc::{AllocError, Global};

impl<K: Coeff> Ideal<K> {
    /// The certificate that the lists that two equal ideals were made of generate one ideal, over a prime field. The ideals
    /// have one reduced basis, so the rows are products of the cofactors of its members in one list and those of the other
    /// list in its members.
    pub fn same_cert(&self, alloc: Global, o: &Ideal<K>) -> Result<Cert, AllocError>
        requires prime { K.SIZE ≡ K.P }
        requires same { SameIdeal K.field self.now.given o.now.given }
        ensures value { IfOk result (IsSameCertificateOf K.P self.now.given o.now.given) }
        ensures holds { IfOk result Holds }
    {
        Ok(Cert::Same {
            p: K::P,
            first: plain_list(alloc, &self.given)?,
            second: plain_list(alloc, &o.given)?,
            to_second: rows_over(alloc, self, o)?,
            to_first: rows_over(alloc, o, self)?,
        })
    }
}

/// The rows that give the list of one ideal, the targets, as combinations of the list of another one with the same basis.
fn rows_over<K: Coeff>(
    alloc: Global,
    sources: &Ideal<K>,
    targets: &Ideal<K>,
) -> Result<PlainTable, AllocError>
    requires prime { K.SIZE ≡ K.P }
    requires members { sources.now.members ≡ targets.now.members }
    ensures rows { IfOk result (λ rows. AreRows K.field sources.now.given targets.now.given (map (map polynomial) rows)) }
    ensures ranks { IfOk result (AllRowsBelow K.field.size) }
{
    let factors = targets.basis.plain_up(alloc)?;
    let rows = sources.basis.plain_down(alloc)?;
    product_of_tables::<K>(alloc, &factors, &rows, sources.given.len())
}
