//! Examples that tell the definitions from readings near to them, and test ideals of monomials. A function of this module
//! does nothing: its clause is the theorem, and the check proves it.

ghost use Rattle.fj_testideal.specs.Examples.{FallingChainStartsAtOne, IsCuspOverFive, LowestDigitComesFirst, OneRootIsNoLimit};
ghost use Rattle.fj_testideal.specs.MonomialLaws.{LimitsOfMonomials};
ghost use Rattle.fj_testideal.specs.SearchExamples.{InnerPointSettlesNoGap, OneExponentTellsNoThreshold};

/// The test ideal of a monomial x^a at t has the exponents t a, rounded down; its left limit has the greatest whole numbers
/// below them.
pub fn limits_of_monomials()
    ensures { LimitsOfMonomials }
{}

/// The root at the end of the first period isn't the test ideal: f = x^5 and t = 1/3 over GF(2).
pub fn one_root_is_no_limit()
    ensures { OneRootIsNoLimit }
{}

/// The falling chain starts at (1) and not at (f): f = x and t = 1 over GF(2).
pub fn falling_chain_starts_at_one()
    ensures { FallingChainStartsAtOne }
{}

/// The digits of a period are used from the lowest on: f = x^5 and t = 1/3 over GF(2).
pub fn lowest_digit_comes_first()
    ensures { LowestDigitComesFirst }
{}

/// A gap may be open whose lower end and an inner point have one test ideal: f = x^5, 1/3 and 3/8.
pub fn inner_point_settles_no_gap()
    ensures { InnerPointSettlesNoGap }
{}

/// A number may be as the threshold at e = 1 and not be it: x^3 + y^3 + z^3 and 3/4 over GF(5).
pub fn one_exponent_tells_no_threshold()
    ensures { OneExponentTellsNoThreshold }
{}

/// The cusp x^2 + y^3 over GF(5) at 4/5: the test ideal is (y, x) and the left limit (1), and 4/5 is an F-jumping number. A
/// falling chain from (f) would give (y, x) for both.
pub fn cusp_over_five()
    ensures { IsCuspOverFive }
{}
