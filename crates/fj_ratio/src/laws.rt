//! Theorems over the definitions alone. A function of this module does nothing: its clause is the theorem, and the check
//! proves it.

ghost use Rattle.fj_ratio.specs.ExpansionLaws.{CandidateOrInside, ExpansionWrites};

/// The pre-period and the period of a fraction write its truncation and its rest.
pub fn expansion_writes()
    ensures { ExpansionWrites }
{}

/// A fraction is a candidate or lies inside a gap.
pub fn candidate_or_inside()
    ensures { CandidateOrInside }
{}
