//! Theorems on the number of periods of a chain of roots. A function of this module does nothing: its clause is the theorem,
//! and the check proves it.

ghost use Rattle.fj_testideal.specs.PeriodLaws.{ChainsTellNumberOfPeriods, MonomialCountFits, MonomialCountRises, NumberOfPeriodsIsUnique, PeriodsAreFew, StrictChainsAreShort};

/// There is one number of periods.
pub fn number_of_periods_is_unique()
    ensures { NumberOfPeriodsIsUnique }
{}

/// A chain that repeats after its last place, and not before, tells the number of periods.
pub fn chains_tell_number_of_periods()
    ensures { ChainsTellNumberOfPeriods }
{}

/// A strict chain of ideals that are generated in degree at most D in n variables has at most C(n + D, n) steps.
pub fn strict_chains_are_short()
    ensures { StrictChainsAreShort }
{}

/// The number of periods is at most C(n + deg f, n) + 1.
pub fn periods_are_few()
    ensures { PeriodsAreFew }
{}

/// C(n + D, n) rises in n and in D, and with 1 added it is below 2^64 for at most seven variables and degree at most 1,000.
pub fn number_of_periods_fits()
    ensures rises { MonomialCountRises }
    ensures fits { MonomialCountFits }
{}
