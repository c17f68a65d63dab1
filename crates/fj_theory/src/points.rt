//! Theorems on values of polynomials at a point and on the ideal of a point, over the definitions alone. A function of this
//! module does nothing: its clause is the theorem, and the check proves it.

ghost use Rattle.fj_theory.specs.PointLaws.{MembersAreZeroAtZeros, PointIdealByValue, PointIdealIsProper, ValuesAreRingMaps};

/// The value at a point is a map of rings.
pub fn values_are_ring_maps()
    ensures { ValuesAreRingMaps }
{}

/// A zero of a list is a zero of each member of its ideal.
pub fn members_are_zero_at_zeros()
    ensures { MembersAreZeroAtZeros }
{}

/// A polynomial is in the ideal of a point exactly where it is zero there.
pub fn point_ideal_by_value()
    ensures { PointIdealByValue }
{}

/// The ideal of a point is proper.
pub fn point_ideal_is_proper()
    ensures { PointIdealIsProper }
{}
