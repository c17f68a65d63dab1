//! Theorems on meets and quotients of ideals, over the definitions alone. A function of this module does nothing: its clause
//! is the theorem, and the check proves it.

ghost use Rattle.fj_theory.specs.ColonLaws.{ColonBySum, ColonByZero, ColonsDependOnIdeals, MeetsDependOnIdeals};

/// The meet of two ideals is one ideal, and depends on the ideals alone.
pub fn meets_depend_on_ideals()
    ensures { MeetsDependOnIdeals }
{}

/// The quotient of two ideals is one ideal, and depends on the ideals alone.
pub fn colons_depend_on_ideals()
    ensures { ColonsDependOnIdeals }
{}

/// The quotient by the zero ideal is the unit ideal.
pub fn colon_by_zero()
    ensures { ColonByZero }
{}

/// The quotient by a sum of ideals is the meet of the quotients.
pub fn colon_by_sum()
    ensures { ColonBySum }
{}
