//! A run by the sugar strategy, for its cofactors alone: that it finds a Gröbner basis isn't owed.
ghost use Rattle.std.specs.Prelude.{◌≡◌, ◌≢◌, ◌++◌, ◌∷◌, [], List, IfOk, OnOk};
ghost use Rattle.std.specs.FinMap.{empty};
ghost use Rattle.fj_theory.specs.Ideal.{ArePolynomials};
ghost use Rattle.fj_theory.specs.Polynomial.{Polynomial};
ghost use Rattle.fj_basis.specs.Members.{AreMonicMembers, sugared_members};
ghost use Rattle.fj_basis.specs.SugaredRun.{IsSugaredRun};

use crate::history::{History, Source};
use crate::members::Member;
use crate::pair_member::next_member;
use crate::pairs::Pair;
use crate::run::first_member;
use crate::sugared_pairs::SugaredPairs;
use fj_coeff::Coeff;
use fj_mono::{Mono, Order};
use fj_poly::{Poly, PolyFault};
use std::alloc::{AllocError, Global};

/// The state of a run by the sugar strategy: the members, how they were made, the pairs that are left, and the leads that
/// are wanted and that no member's lead divides so far.
#[derive(Drop)]
pub(crate) struct SugaredRun<K: Coeff, O: Order> {
    members: Vec<Member<K, O>>,
    history: History<K, O>,
    pairs: SugaredPairs<O>,
    wanted: Vec<Mono>,
}

impl<K: Coeff, O: Order> SugaredRun<K, O> {
    /// The run on a list begins with those of its polynomials that aren't zero, made monic.
    pub(crate) fn start(
        alloc: Global,
        list: &[Poly<K, O>],
        wanted: Vec<Mono>,
    ) -> Result<SugaredRun<K, O>, AllocError>
        requires { ArePolynomials K.field list.now }
        ensures { IfOk result (IsSugaredRun K.field O.key list.now) }
    {
        let mut run = SugaredRun {
            members: Vec::new(alloc),
            history: History::new(alloc, true),
            pairs: SugaredPairs::new(alloc),
            wanted,
        };
        for j in 0..list.len() {
            if let Some((member, inverse)) = first_member(alloc, list, j, run.members.len())? {
                run.history.push(alloc, inverse, Source::Given(j))?;
                run.append(alloc, member)?;
            }
        }
        Ok(run)
    }

    /// Whether each lead that is wanted is a multiple of a member's.
    pub(crate) fn has_all(&self) -> bool {
        self.wanted.is_empty()
    }

    /// The members, and how they were made.
    pub(crate) fn into_parts(self) -> (Vec<Member<K, O>>, History<K, O>)
        ensures members { result.0 ≡ self.members }
        ensures history { result.1 ≡ self.history }
    {
        (self.members, self.history)
    }

    /// The next pair is treated: its S-polynomial is divided by the members, and a remainder that isn't zero is made monic
    /// and appended. Answers whether there was one.
    pub(crate) fn turn(&mut self, alloc: Global) -> Result<bool, PolyFault>
        requires { AreMonicMembers K.field O.key (sugared_members self.old.members.items) }
        ensures { OnOk result ((L : List Polynomial) → IsSugaredRun K.field O.key L self.old → IsSugaredRun K.field O.key L self.new) }
    {
        let Some((first, second)) = self.pairs.take_next() else {
            return Ok(false);
        };
        self.treat(alloc, first, second)?;
        Ok(true)
    }

    // The pair of two places is treated.
    fn treat(&mut self, alloc: Global, first: usize, second: usize) -> Result<(), PolyFault>
        requires { AreMonicMembers K.field O.key (sugared_members self.old.members.items) }
        ensures { OnOk result ((L : List Polynomial) → IsSugaredRun K.field O.key L self.old → IsSugaredRun K.field O.key L self.new) }
    {
        if first >= second || second >= self.members.len() {
            return Ok(());
        }
        let pair = Pair::new(
            first,
            second,
            &self.members[first].lead(),
            &self.members[second].lead(),
        );
        if let Some(member) = next_member(alloc, &self.members, &pair, &mut self.history)? {
            self.append(alloc, member)?;
        }
        Ok(())
    }

    // Appends a member, with its pairs.
    fn append(&mut self, alloc: Global, member: Member<K, O>) -> Result<(), AllocError>
        requires { member.polynomial ≢ empty }
        ensures members { OnOk result (self.new.members.items ≡ self.old.members.items ++ member ∷ []) }
        ensures history { self.new.history ≡ self.old.history }
    {
        let lead = member.lead();
        self.wanted.retain(|m| !lead.divides(m));
        let above = member.sugar.saturating_sub(lead.total());
        self.pairs.add(alloc, lead, above)?;
        self.members.push(member)?;
        Ok(())
    }
}
