//! Theorems on p^-1-linear maps, F-purity and compatible ideals, over the definitions alone. A function of this module does
//! nothing: its clause is the theorem, and the check proves it.

ghost use Rattle.fj_theory.specs.SplittingLaws.{CompatibleByRoot, FedderCriterion, FedderCriterionAt, InverseLinearMaps, TracesGenerate};

/// The q^-1-linear maps are the additive maps phi with phi (g^q h) = g phi (h).
pub fn inverse_linear_maps()
    ensures { InverseLinearMaps }
{}

/// The q^-1-linear maps are the traces of multiples by a polynomial.
pub fn traces_generate()
    ensures { TracesGenerate }
{}

/// Fedder's criterion: F-purity by the root of I^[p] : I.
pub fn fedder_criterion()
    ensures { FedderCriterion }
{}

/// Fedder's criterion at a point.
pub fn fedder_criterion_at()
    ensures { FedderCriterionAt }
{}

/// An ideal is compatible with a polynomial exactly where the root of its multiples is inside it.
pub fn compatible_by_root()
    ensures { CompatibleByRoot }
{}
