//! Theorems on test ideals and left limits, over the definitions alone. A function of this module does nothing: its clause
//! is the theorem, and the check proves it.

ghost use Rattle.fj_testideal.specs.TestIdealLaws.{LeftLimitsAreLimits, LimitsAreUnique, TestIdealsAreRoots, TestIdealsFall, WholeNumbersInExponents};

/// Equal exponents have one test ideal and one left limit, as ideals.
pub fn limits_are_unique()
    ensures { LimitsAreUnique }
{}

/// The test ideal and the left limit fall as the exponent grows.
pub fn test_ideals_fall()
    ensures { TestIdealsFall }
{}

/// The test ideal at t + k is f^k times that at t, and the same for the left limit.
pub fn whole_numbers_in_exponents()
    ensures { WholeNumbersInExponents }
{}

/// The test ideal at m/p^e is the root of f^m at e.
pub fn test_ideals_are_roots()
    ensures { TestIdealsAreRoots }
{}

/// The left limit at t is the test ideal at every number below t and near to it.
pub fn left_limits_are_limits()
    ensures { LeftLimitsAreLimits }
{}
