//! Theorems over the definitions alone. A function of this module does nothing: its clause is the theorem, and the check
//! proves it.

ghost use Rattle.fj_theory.specs.RootLaws.{PartsGenerateRoot, PartsUnique, RootOfRoot};

/// Roots of roots are roots.
pub fn root_of_root()
    ensures { RootOfRoot }
{}

/// The parts of the polynomials of a list generate the smallest ideal whose Frobenius power has the list inside.
pub fn parts_generate_root()
    ensures { PartsGenerateRoot }
{}

/// A polynomial has one list of parts.
pub fn parts_unique()
    ensures { PartsUnique }
{}
