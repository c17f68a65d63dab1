//! Theorems on the list of jumps for E. A function of this module does nothing: its clause is the theorem, and the check
//! proves it.

ghost use Rattle.fj_testideal.specs.ListLaws.{CompleteListsAreConstantBetween, CompleteListsHaveAllJumps, CompleteListsLeaveNoChange, JumpsAreListedOrInOpenGaps, ListedAreJumps, OpenGapsAreOpen};

/// A candidate is an F-jumping number exactly where it is listed.
pub fn listed_are_jumps()
    ensures { ListedAreJumps }
{}

/// The open gaps are exactly those on which the test ideal isn't constant.
pub fn open_gaps_are_open()
    ensures { OpenGapsAreOpen }
{}

/// An F-jumping number of (0, 1] is in the list for E, or lies inside an open gap.
pub fn jumps_are_listed_or_in_open_gaps()
    ensures { JumpsAreListedOrInOpenGaps }
{}

/// Where no gap is open, the list for E has all F-jumping numbers of (0, 1].
pub fn complete_lists_have_all_jumps()
    ensures { CompleteListsHaveAllJumps }
{}

/// Where no gap is open, the test ideal is constant on each gap of the candidates.
pub fn complete_lists_leave_no_change()
    ensures { CompleteListsLeaveNoChange }
{}

/// Where no gap is open, the test ideal is constant between neighbours in 0 and the list.
pub fn complete_lists_are_constant_between()
    ensures { CompleteListsAreConstantBetween }
{}
