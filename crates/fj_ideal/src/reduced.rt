//! Ideals by their reduced Grevlex bases alone, without cofactors: those on the way to an answer.
ghost use Rattle.std.specs.Prelude.{◌≡◌, ◌↔◌, IfOk, IsTrue};
ghost use Rattle.fj_theory.specs.Exponents.{origin};
ghost use Rattle.fj_theory.specs.Ideal.{Inside, Member, SameIdeal};
ghost use Rattle.fj_theory.specs.Polynomial.{term};
ghost use Rattle.fj_plain.specs.declared.order_name.OrderName.TheVariants as orders;
ghost use Rattle.fj_ideal.specs.Ideal.{IsIdealOf};
ghost use Rattle.fj_ideal.specs.Lists.{NoProduct, RunFor};
ghost use Rattle.fj_ideal.specs.Reduced.{IsReduced, IsReducedOf};
ghost use Rattle.fj_ideal.specs.Stop.{StopsExactlyWith, StopsOnlyWith};

use crate::ideal::{Ideal, are_same};
use crate::thinning::thinned_basis;
use fj_basis::{Stop, copy_list, look_over, reduced_basis};
use fj_coeff::Coeff;
use fj_poly::{GPoly, Poly};
use std::alloc::{AllocError, Global};
use std::marker::Model;

/// An ideal of polynomials: the list that it was made of, and its reduced Gröbner basis for Grevlex, without cofactors (Cox,
/// Little and O'Shea 2015, chapter 2, section 7).
#[derive(Drop)]
pub struct Reduced<K: Coeff> {
    given: Vec<GPoly<K>>,
    members: Vec<GPoly<K>>,
}

impl<K: Coeff> Model for Reduced<K> {
    ghost use Rattle.fj_ideal.specs.Reduced.{IsReduced, WithMembers, reduced_code};

    ghost Value = { WithMembers };

    ghost coded = { reduced_code };

    ghost view = { λ a. record { given = a.given.items; members = a.members.items } };

    ghost invariant = { λ a. IsReduced K.field (record { given = a.given.items; members = a.members.items }) };
}

impl<K: Coeff> Reduced<K> {
    /// The ideal of a list, by Buchberger's algorithm with at most `pairs` turns and no cofactor formed.
    ///
    /// `Pairs` exactly where that many turns were made and pairs are pending, `High` exactly where a sugar above 2^40 arises
    /// within these turns or, where no pair is then pending, in finishing. Both keep the list, its terms falling in Grevlex.
    /// `Product` never comes.
    pub fn of(alloc: Global, list: &[GPoly<K>], pairs: u64) -> Result<Reduced<K>, Stop>
        ensures value { IfOk result (IsReducedOf K.field list.now) }
        ensures stop { StopsExactlyWith K.field (RunFor orders.Grevlex (λ L. L ≡ list.now)) NoProduct pairs result }
    {
        let given = copy_list(alloc, list)?;
        Reduced::of_owned(alloc, given, pairs)
    }

    /// The ideal of a list that it takes: as `of`, without a copy of the list.
    pub fn of_owned(alloc: Global, given: Vec<GPoly<K>>, pairs: u64) -> Result<Reduced<K>, Stop>
        ensures value { IfOk result (IsReducedOf K.field given.items) }
        ensures stop { StopsExactlyWith K.field (RunFor orders.Grevlex (λ L. L ≡ given.items)) NoProduct pairs result }
    {
        look_over(&given);
        let members = reduced_basis(alloc, &given, pairs)?;
        Ok(Reduced { given, members })
    }

    /// The ideal of a list that it takes: as `of_owned`, but its basis is found from fewer and simpler generators where a run
    /// on these has at most `pairs` turns.
    ///
    /// `Pairs` and `High` only where the run on the list is unfinished or too high. Both keep the list, its terms falling in
    /// Grevlex. `Product` never comes.
    pub fn by_thinning(alloc: Global, given: Vec<GPoly<K>>, pairs: u64) -> Result<Reduced<K>, Stop>
        ensures value { IfOk result (IsReducedOf K.field given.items) }
        ensures stop { StopsOnlyWith K.field (RunFor orders.Grevlex (λ L. L ≡ given.items)) NoProduct pairs result }
    {
        look_over(&given);
        match thinned_basis(alloc, &given, pairs)? {
            Some(members) => Ok(Reduced { given, members }),
            None => Reduced::of_owned(alloc, given, pairs),
        }
    }

    /// The list that the ideal was made of.
    pub fn given(&self) -> &[GPoly<K>]
        ensures value { result.now ≡ self.now.given }
        ensures ideal { IsReduced K.field self.now }
    {
        let _ = &self.members;
        &self.given
    }

    /// The members of the reduced Grevlex basis, rising by lead.
    pub fn members(&self) -> &[GPoly<K>]
        ensures value { result.now ≡ self.now.members }
        ensures ideal { IsReduced K.field self.now }
    {
        let _ = &self.given;
        &self.members
    }

    /// Whether 1 is in the ideal.
    pub fn is_unit(&self) -> bool
        ensures { IsTrue result ↔ Member K.field self.now.given (term 1 origin) }
    {
        match self.members() {
            [member] => member.degree() == Some(0),
            _ => false,
        }
    }

    /// Whether this ideal is inside the other one.
    pub fn is_inside(&self, alloc: Global, o: &Ideal<K>) -> Result<bool, AllocError>
        ensures { IfOk result (λ b. IsTrue b ↔ Inside K.field self.now.given o.now.given) }
    {
        // What is given of the other ideal are polynomials.
        let _ = o.given();
        o.has_all(alloc, self.members())
    }

    /// Whether the two are one ideal: their bases are equal, and nothing is run.
    pub fn same(&self, o: &Reduced<K>) -> bool
        ensures { IsTrue result ↔ SameIdeal K.field self.now.given o.now.given }
    {
        are_same(self.members(), o.members())
    }

    /// The same ideal once more, with the same list and members.
    pub fn copy(&self, alloc: Global) -> Result<Reduced<K>, AllocError>
        ensures { IfOk result (λ J. J ≡ self.now) }
    {
        Ok(Reduced {
            given: copy_list(alloc, &self.given)?,
            members: copy_list(alloc, &self.members)?,
        })
    }

    /// The ideal of the same list with cofactors: the list is run once more, with at most `pairs` turns.
    ///
    /// It stops exactly where that run does, as `Ideal::of` with this list.
    pub fn with_cofactors(self, alloc: Global, pairs: u64) -> Result<Ideal<K>, Stop>
        ensures value { IfOk result (IsIdealOf K.field self.given) }
        ensures stop { StopsExactlyWith K.field (RunFor orders.Grevlex (λ L. L ≡ self.given)) NoProduct pairs result }
    {
        Ideal::of_owned(alloc, self.given, pairs)
    }
}
