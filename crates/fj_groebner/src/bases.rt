//! Theorems over the definitions of reduced bases, and of the run. A function of this module does nothing:
//! its clause is the theorem, and the check proves it.

ghost use Rattle.fj_groebner.specs.BasisLaws.{BasesAreOfIdeals, BasesKeepVariables, DegreeOrders, DegreeOrdersAreLow, FinishedIsReduced, HighByProducts, OneReducedBasis, RunsHaveOneOutcome, SettledPairsCover};

/// Two lists of one ideal have one reduced basis.
pub fn one_reduced_basis()
    ensures { OneReducedBasis }
{}

/// A reduced basis generates its ideal, and is that of each list that does.
pub fn bases_are_of_ideals()
    ensures { BasesAreOfIdeals }
{}

/// The reduced bases of ideals in the first variables, of their meets and of their quotients use these variables alone.
pub fn bases_keep_variables()
    ensures { BasesKeepVariables }
{}

/// Buchberger's criterion: settled pairs give the property on leads.
pub fn settled_pairs_cover()
    ensures { SettledPairsCover }
{}

/// A finished run gives the reduced basis.
pub fn finished_is_reduced()
    ensures { FinishedIsReduced }
{}

/// No list is two of finished, unfinished and too high.
pub fn runs_have_one_outcome()
    ensures { RunsHaveOneOutcome }
{}

/// Grlex and Grevlex compare the total degrees first.
pub fn degree_orders()
    ensures { DegreeOrders }
{}

/// A sugar above the limit arises exactly where a product that is subtracted has a term above it.
pub fn high_by_products()
    ensures { HighByProducts }
{}

/// In an order that compares the total degrees first no product that is subtracted has a term above the limit.
pub fn degree_orders_are_low()
    ensures { DegreeOrdersAreLow }
{}
