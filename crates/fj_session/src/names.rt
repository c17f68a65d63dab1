//! What the names of ideals stand for in a question.
ghost use Rattle.std.specs.Prelude.{◌≡◌, IfOk};
ghost use Rattle.fj_coeff.specs.PrimeField.{prime_field};
ghost use Rattle.fj_ideal.specs.Ideal.{IsIdeal, IsIdealOf, of_itself};
ghost use Rattle.fj_ideal.specs.Lists.{NoProduct};
ghost use Rattle.fj_session.specs.Names.{IsAtHand, IsKept, ideal_of, standing_in};
ghost use Rattle.fj_session.specs.Outcome.{OwnStops};
ghost use Rattle.fj_session.specs.Standing.{IsDeclaredList};

use super::shown::from_plain;
use fj_basis::{Stop, copy_list};
use fj_coeff::Coeff;
use fj_ideal::Ideal;
use fj_script::Env;
use fj_shell::{NamedIdeal, named_ideal_at};
use std::alloc::{AllocError, Global};

/// The ring with its values, and the ideals of the lets that a question uses, each at its place among the declared names.
#[derive(Drop)]
pub(crate) struct Names<'s, K: Coeff> {
    pub env: &'s Env,
    pub lets: Vec<Option<Ideal<K>>>,
}

/// The ideal that a name stands for.
#[derive(Drop)]
pub(crate) enum Standing<'n, K: Coeff> {
    /// That of the generators as declared.
    Declared(Ideal<K>),
    /// That of the value of a let.
    Kept(&'n Ideal<K>),
}

impl<K: Coeff> Standing<'_, K> {
    /// The ideal.
    pub(crate) fn ideal(&self) -> &Ideal<K>
        ensures { result.now ≡ ideal_of self.now }
    {
        match self {
            Standing::Declared(ideal) => ideal,
            Standing::Kept(ideal) => ideal,
        }
    }
}

impl<K: Coeff> Names<'_, K> {
    /// The ideal that the name at this place stands for: that of its generators, which are run with this budget, or that of
    /// the value of a let.
    pub(crate) fn standing(
        &self,
        alloc: Global,
        budget: u64,
        j: u32,
    ) -> Result<Standing<'_, K>, Stop>
        requires field { K.field ≡ prime_field self.now.env.now.p }
        requires named { IsAtHand K.field self.now j }
        ensures ideal { IfOk result (λ J. IsIdealOf K.field (standing_in self.now j).list (ideal_of J)) }
        ensures stop { OwnStops K.field (IsDeclaredList (standing_in self.now j)) NoProduct budget result }
    {
        match named_ideal_at(self.env, j) {
            NamedIdeal::Declared(gens) => {
                let ideal = Ideal::of_owned(alloc, from_plain(alloc, gens)?, budget)?;
                Ok(Standing::Declared(ideal))
            }
            NamedIdeal::Let { .. } => Ok(Standing::Kept(self.kept(j))),
        }
    }

    /// The same, as an ideal of its own.
    pub(crate) fn own_ideal(&self, alloc: Global, budget: u64, j: u32) -> Result<Ideal<K>, Stop>
        requires field { K.field ≡ prime_field self.now.env.now.p }
        requires named { IsAtHand K.field self.now j }
        ensures ideal { IfOk result (IsIdealOf K.field (standing_in self.now j).list) }
        ensures stop { OwnStops K.field (IsDeclaredList (standing_in self.now j)) NoProduct budget result }
    {
        match named_ideal_at(self.env, j) {
            NamedIdeal::Declared(gens) => {
                Ideal::of_owned(alloc, from_plain(alloc, gens)?, budget)
            }
            NamedIdeal::Let { .. } => Ok(reduced(alloc, self.kept(j))?),
        }
    }

    /// The ideal that is kept of a let.
    fn kept(&self, j: u32) -> &Ideal<K>
        requires { IsKept K.field self.now j }
        ensures { (h : IsKept K.field self.now j) × (result.now ≡ h.J) }
    {
        match &self.lets[j as usize] {
            Some(ideal) => ideal,
            None => unreachable!(),
        }
    }
}

/// The ideal as that of its reduced Grevlex basis.
pub(crate) fn reduced<K: Coeff>(alloc: Global, ideal: &Ideal<K>) -> Result<Ideal<K>, AllocError>
    ensures value { IfOk result (λ J. J ≡ of_itself ideal.now.members) }
    ensures ideal { IfOk result (IsIdeal K.field) }
{
    Ideal::of_reduced(alloc, copy_list(alloc, ideal.members())?)
}
