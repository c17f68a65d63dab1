//! Theorems on F-thresholds, over the definitions alone. A function of this module does nothing: its clause is the theorem,
//! and the check proves it.

ghost use Rattle.fj_testideal.specs.ThresholdLaws.{EndsInside, GapIsUnique, GapsByLimits, InsideStaysInside, NuAndThresholdAreUnique, NuGrowsByDigit, PowersInsideByRoots, ThresholdAtOrBetween, ThresholdByNeighbours, ThresholdInOneGap, ThresholdsByLimits};

/// f^m is in (J^[q]) exactly where the root of f^m is inside (J).
pub fn powers_inside_by_roots()
    ensures { PowersInsideByRoots }
{}

/// nu(e) is one number, the threshold is one value, and each tells the other.
pub fn nu_and_threshold_are_unique()
    ensures { NuAndThresholdAreUnique }
{}

/// p nu(e) <= nu(e+1) <= p nu(e) + p - 1.
pub fn nu_grows_by_digit()
    ensures { NuGrowsByDigit }
{}

/// t is the threshold exactly where the test ideal is inside (J) and the left limit isn't.
pub fn thresholds_by_limits()
    ensures { ThresholdsByLimits }
{}

/// A gap has the threshold inside exactly where the limits at its ends say so.
pub fn gaps_by_limits()
    ensures { GapsByLimits }
{}

/// What is inside (J) at one exponent is inside (J) at each larger one.
pub fn inside_stays_inside()
    ensures { InsideStaysInside }
{}

/// The test ideal at 0 isn't inside a proper (J), and the one at 1 is where f is in (J).
pub fn ends_inside()
    ensures { EndsInside }
{}

/// At most one gap has the threshold inside.
pub fn gap_is_unique()
    ensures { GapIsUnique }
{}

/// Between neighbours where the test ideal comes to be inside (J), the left limit at the upper one tells the threshold, or the
/// gap that has it inside.
pub fn threshold_by_neighbours()
    ensures { ThresholdByNeighbours }
{}

/// A candidate is the threshold, or exactly one gap has it inside.
pub fn threshold_at_or_between()
    ensures { ThresholdAtOrBetween }
{}

/// Where no candidate is the threshold, exactly one gap has it inside.
pub fn threshold_in_one_gap()
    ensures { ThresholdInOneGap }
{}
