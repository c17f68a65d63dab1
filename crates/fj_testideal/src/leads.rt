//! Theorems on chains of ideals that are generated in bounded degree: how many leads they have, and when they repeat. A
//! function of this module does nothing: its clause is the theorem, and the check proves it.

ghost use Rattle.fj_testideal.specs.LeadLaws.{BasisTellsLeads, EachPeriodMovesLeads, EqualByLeads, FallingChainRepeats, LeadsAreFew, MonomialCountIsBinomial, MonomialsCounted, PartsAreBounded, PeriodsRepeat, PowersAreBounded, ProductsAreBounded, RisingChainRepeats, RootsAreBounded, RootsOfPowersAreBounded, StrictStepCounts};

/// Nested ideals, both generated in bounded degree, with the same leads of bounded degree are equal.
pub fn equal_by_leads()
    ensures { EqualByLeads }
{}

/// There are C(n + D, n) monomials of degree at most D in n variables.
pub fn monomials_counted()
    ensures counted { MonomialsCounted }
    ensures binomial { MonomialCountIsBinomial }
{}

/// A reduced Grevlex basis tells the leads of members.
pub fn basis_tells_leads()
    ensures { BasisTellsLeads }
{}

/// There are at most C(n + D, n) leads of degree at most D in n variables.
pub fn leads_are_few()
    ensures { LeadsAreFew }
{}

/// Each strict step of a chain of ideals that are generated in bounded degree moves the number of leads by one at least.
pub fn strict_step_counts()
    ensures { StrictStepCounts }
{}

/// A rising chain with more than C(n + D, n) steps repeats.
pub fn rising_chain_repeats()
    ensures { RisingChainRepeats }
{}

/// A falling chain with more than C(n + D, n) steps repeats.
pub fn falling_chain_repeats()
    ensures { FallingChainRepeats }
{}

/// The parts at e of a polynomial of degree at most B have degree at most B/p^e and no other variables.
pub fn parts_are_bounded()
    ensures { PartsAreBounded }
{}

/// The root at e of polynomials of degree at most p^e D is generated in degree at most D in their variables.
pub fn roots_are_bounded()
    ensures { RootsAreBounded }
{}

/// Products have at most the sum of the degrees and no other variables, and so have powers.
pub fn products_are_bounded()
    ensures products { ProductsAreBounded }
    ensures powers { PowersAreBounded }
{}

/// The root at e of f^m, m <= p^e, is generated in degree at most deg f in the variables of f.
pub fn roots_of_powers_are_bounded()
    ensures { RootsOfPowersAreBounded }
{}

/// A further period gives the same ideal, or moves the number of leads.
pub fn each_period_moves_leads()
    ensures { EachPeriodMovesLeads }
{}

/// The chains of a period repeat within C(n + deg f, n) + 1 periods.
pub fn periods_repeat()
    ensures { PeriodsRepeat }
{}
