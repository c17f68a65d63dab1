//! Theorems on chains of Frobenius roots, over the definitions alone: they say how test ideals and left limits are reached,
//! one digit of the exponent at a time. A function of this module does nothing: its clause is the theorem, and the check
//! proves it.

ghost use Rattle.fj_testideal.specs.ChainLaws.{ChainsAreMonotone, ChainsAreRoots, ChainsDependOnIdeals, ChainsGoOn, DigitsReachLimits, DigitsReachRoot, NonzeroDigitsWriteNonzero, PeriodsReachLimits, RepeatsStay};

/// Steps, chains and limits depend on the ideals alone, and not on the lists that generate them.
pub fn chains_depend_on_ideals()
    ensures { ChainsDependOnIdeals }
{}

/// A chain goes on by one period, and stays without a repeat where the next ideal is another one.
pub fn chains_go_on()
    ensures { ChainsGoOn }
{}

/// The steps for the digits of a number reach the root of that power of f.
pub fn digits_reach_root()
    ensures { DigitsReachRoot }
{}

/// After k periods of b digits a chain is at a root at k b.
pub fn chains_are_roots()
    ensures { ChainsAreRoots }
{}

/// The chain of a period from (f) rises, and the one from (1) falls.
pub fn chains_are_monotone()
    ensures { ChainsAreMonotone }
{}

/// A chain is constant from its first repeat on.
pub fn repeats_stay()
    ensures { RepeatsStay }
{}

/// From the limits of the period's chains one root more, for the digits before the period, gives the test ideal and the left
/// limit. That a chain repeats is a premise, by the two lists that are one ideal: here no ideal's membership is decided.
pub fn digits_reach_limits()
    ensures { DigitsReachLimits }
{}

/// The limits of a period's chains are the test ideal and the left limit at the value of the period.
pub fn periods_reach_limits()
    ensures { PeriodsReachLimits }
{}

/// A nonzero digit gives a nonzero number.
pub fn nonzero_digits_write_nonzero()
    ensures { NonzeroDigitsWriteNonzero }
{}
