//! Theorems on generated sessions, over the definitions alone. A function of this module does nothing: its clause is the
//! theorem, and the check proves it.

ghost use Rattle.fj_gen.specs.Accepted.{GeneratedIsAccepted};

/// Each generated session is accepted, and has two questions for each polynomial.
pub fn generated_is_accepted()
    ensures { GeneratedIsAccepted }
{}
