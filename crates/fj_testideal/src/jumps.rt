//! Theorems on F-jumping numbers and on intervals on which the test ideal is constant, over the definitions alone. A function
//! of this module does nothing: its clause is the theorem, and the check proves it.

ghost use Rattle.fj_testideal.specs.JumpLaws.{ConstancyByEnds, ConstancyGoesInside, JumpsAreDifferences, OneIsJump, OpenGapsHoldChanges, TestIdealsStayAbove};

/// A number is an F-jumping number exactly where test ideal and left limit differ.
pub fn jumps_are_differences()
    ensures { JumpsAreDifferences }
{}

/// 1 is an F-jumping number of each polynomial that isn't constant.
pub fn one_is_jump()
    ensures { OneIsJump }
{}

/// The test ideal is constant on [s, t) exactly where one list is the test ideal at s and the left limit at t.
pub fn constancy_by_ends()
    ensures { ConstancyByEnds }
{}

/// Where the test ideal isn't constant on [s, t), it changes at some m/p^e in it.
pub fn open_gaps_hold_changes()
    ensures { OpenGapsHoldChanges }
{}

/// An interval on which the test ideal is constant has one test ideal and one left limit inside, and no F-jumping number.
pub fn constancy_goes_inside()
    ensures { ConstancyGoesInside }
{}

/// Above each exponent the test ideal stays the same for a while, where f isn't zero.
pub fn test_ideals_stay_above()
    ensures { TestIdealsStayAbove }
{}
