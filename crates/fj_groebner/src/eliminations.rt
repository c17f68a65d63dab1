//! Theorems on the elimination of the eighth variable, and on meets and quotients by it, over the definitions alone. A
//! function of this module does nothing: its clause is the theorem, and the check proves it.

ghost use Rattle.fj_groebner.specs.EliminationLaws.{DivisionOfMultiples, EighthIsTested, EliminationGivesColon, EliminationGivesMeet, EliminationTheorem};

/// Whether a polynomial lacks the eighth variable is tested on its terms.
pub fn eighth_is_tested()
    ensures { EighthIsTested }
{}

/// The members without the eighth variable of an elimination basis generate what the ideal has without it.
pub fn elimination_theorem()
    ensures { EliminationTheorem }
{}

/// What an elimination basis of t I, (1 - t) J has without t is the reduced Grevlex basis of the meet of (I) and (J).
pub fn elimination_gives_meet()
    ensures { EliminationGivesMeet }
{}

/// A multiple of a polynomial is divided by it with the remainder zero.
pub fn division_of_multiples()
    ensures { DivisionOfMultiples }
{}

/// What an elimination basis of t I, (1 - t) g has without t, divided by g, is the quotient (I) : (g).
pub fn elimination_gives_colon()
    ensures { EliminationGivesColon }
{}
