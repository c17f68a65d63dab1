//! The run of Buchberger's algorithm, a turn at a time.
ghost use Rattle.std.specs.Prelude.{◌≡◌, ◌≢◌, ◌<◌, ◌↔◌, ◌++◌, ◌∷◌, ℕ, suc, List, [], IfOk, OnOk, IsTrue, length};
ghost use Rattle.std.specs.FinMap.{empty};
ghost use Rattle.fj_theory.specs.Ideal.{ArePolynomials};
ghost use Rattle.fj_theory.specs.Lead.{lead_exponents};
ghost use Rattle.fj_theory.specs.Polynomial.{Polynomial};
ghost use Rattle.fj_basis.specs.Outcome.{IsHighOnlyWhere};
ghost use Rattle.fj_basis.specs.Pending.{HasPairsWith};
ghost use Rattle.fj_basis.specs.State.{IsAfter, IsFirstMember, IsHighNext, IsState, IsTurned};

use crate::history::{History, Source};
use crate::members::Member;
use crate::pair_member::{has_coprime_leads, next_member};
use crate::pending::Pending;
use crate::sugar::{look_over, sugar_of};
use fj_coeff::Coeff;
use fj_mono::Order;
use fj_poly::{Poly, PolyFault};
use std::alloc::{AllocError, Global};

/// The state of a run: the members found so far, and the pending pairs of their places.
#[derive(Drop)]
pub(crate) struct Run<K: Coeff, O: Order> {
    members: Vec<Member<K, O>>,
    pending: Pending<O>,
    history: History<K, O>,
}

impl<K: Coeff, O: Order> Run<K, O> {
    /// The run on a list begins with those of its polynomials that aren't zero, made monic, and with all pairs but those
    /// that are spared.
    pub(crate) fn start(
        alloc: Global,
        list: &[Poly<K, O>],
        is_recorded: bool,
    ) -> Result<Run<K, O>, AllocError>
        ensures value { IfOk result (IsAfter K.field O.key list.now 0) }
        ensures kept { IfOk result (λ run. run.history.is_kept ≡ is_recorded) }
    {
        look_over(list);
        let mut run = Run {
            members: Vec::new(alloc),
            pending: Pending::new(alloc),
            history: History::new(alloc, is_recorded),
        };
        for j in 0..list.len() {
            if let Some((member, inverse)) = first_member(alloc, list, j, run.members.len())? {
                run.history.push(alloc, inverse, Source::Given(j))?;
                run.append(alloc, member)?;
            }
        }
        run.pending.remove_spared();
        Ok(run)
    }

    /// Whether no pair is pending.
    pub(crate) fn is_done(&self) -> bool
        ensures { IsTrue result ↔ (self.now.pending.pairs ≡ []) }
    {
        self.pending.is_empty()
    }

    /// The members, and how they were made.
    pub(crate) fn into_parts(self) -> (Vec<Member<K, O>>, History<K, O>)
        ensures members { result.0 ≡ self.members }
        ensures history { result.1 ≡ self.history }
    {
        (self.members, self.history)
    }

    /// One turn, and then the next pair is removed as long as it is spared, which is no turn.
    pub(crate) fn turn(&mut self, alloc: Global) -> Result<(), PolyFault>
        requires state { IsState K.field O.key self.old }
        requires pending { self.old.pending.pairs ≢ [] }
        ensures turn { OnOk result ((L : List Polynomial) (turns : ℕ) → IsAfter K.field O.key L turns self.old → IsAfter K.field O.key L (suc turns) self.new) }
        ensures kept { OnOk result (self.new.history.is_kept ≡ self.old.history.is_kept) }
        ensures high { IsHighOnlyWhere (IsHighNext K.field O.key self.old) result }
    {
        self.treat_next(alloc)?;
        self.pending.remove_spared();
        Ok(())
    }

    // The next pair is dropped where its leads are coprime, else its S-polynomial is divided by the members, and a remainder
    // that isn't zero is made monic and appended.
    fn treat_next(&mut self, alloc: Global) -> Result<(), PolyFault>
        requires state { IsState K.field O.key self.old }
        requires pending { self.old.pending.pairs ≢ [] }
        ensures turn { OnOk result ((L : List Polynomial) (turns : ℕ) → IsAfter K.field O.key L turns self.old → IsTurned K.field O.key L turns self.new) }
        ensures kept { OnOk result (self.new.history.is_kept ≡ self.old.history.is_kept) }
        ensures high { IsHighOnlyWhere (IsHighNext K.field O.key self.old) result }
    {
        let pair = self.pending.take_next();
        if has_coprime_leads(&self.members, &pair) {
            return Ok(());
        }
        if let Some(member) = next_member(alloc, &self.members, &pair, &mut self.history)? {
            self.append(alloc, member)?;
        }
        Ok(())
    }

    // Appends a member, and its pairs with all earlier members become pending.
    fn append(&mut self, alloc: Global, member: Member<K, O>) -> Result<(), AllocError>
        requires { member.polynomial ≢ empty }
        ensures members { OnOk result (self.new.members.items ≡ self.old.members.items ++ member ∷ []) }
        ensures history { self.new.history ≡ self.old.history }
        ensures leads { OnOk result (self.new.pending.leads ≡ self.old.pending.leads ++ lead_exponents O.key member.polynomial ∷ []) }
        ensures pending { OnOk result (HasPairsWith self.new.pending.leads (length self.old.pending.leads) self.old.pending.pairs self.new.pending.pairs) }
    {
        self.pending.add(alloc, member.lead())?;
        self.members.push(member)?;
        Ok(())
    }
}

/// The member that the polynomial at place j of the list gives, if it isn't zero, and the constant that makes it monic.
pub(crate) fn first_member<K: Coeff, O: Order>(
    alloc: Global,
    list: &[Poly<K, O>],
    j: usize,
    place: usize,
) -> Result<Option<(Member<K, O>, K)>, AllocError>
    requires list { ArePolynomials K.field list.now }
    requires at { j < length list.now }
    ensures { IfOk result (IsFirstMember K.field O.key K.rank list.now j place) }
{
    let f = &list[j];
    let Some((coefficient, _)) = f.lead() else {
        return Ok(None);
    };
    let inverse = coefficient.inv();
    let member = Member {
        polynomial: f.scale(alloc, inverse)?,
        sugar: sugar_of(f),
        place,
    };
    Ok(Some((member, inverse)))
}
