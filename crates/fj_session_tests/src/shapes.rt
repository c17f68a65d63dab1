//! An auditor of the tests' own, which looks at the certificates that it is shown.
ghost use Rattle.std.specs.Prelude.{None, codes};

use fj_audit::{AuditFault, Auditor};
use fj_plain::{Cert, OrderName};
use std::alloc::Global;

/// What a certificate is about: of a basis its order and length, of two lists that generate one ideal their lengths, and of
/// parts at e the length of the list.
#[derive(Clone, Copy, Debug, PartialEq, Eq)]
pub(crate) enum Shape {
    Basis(OrderName, usize),
    Same(usize, usize),
    Root(u32, usize),
}

/// The shape of a certificate.
fn shape_of(c: &Cert) -> Shape {
    match c {
        Cert::Basis { order, found, .. } => Shape::Basis(*order, found.len()),
        Cert::Same { first, second, .. } => Shape::Same(first.len(), second.len()),
        Cert::Root { e, list, .. } => Shape::Root(*e, list.len()),
    }
}

/// Notes certificates of these shapes, in this order, and fails any other note.
#[derive(Debug, Drop)]
pub(crate) struct Shapes {
    shapes: Vec<Shape>,
    seen: u64,
    faults: u64,
}

impl Shapes {
    /// One that was shown nothing.
    pub(crate) fn new(shapes: Vec<Shape>) -> Shapes {
        Shapes {
            shapes,
            seen: 0,
            faults: 0,
        }
    }

    /// Whether this certificate is the next one.
    fn is_next(&self, c: &Cert) -> bool {
        self.shapes.get(self.seen as usize) == Some(&shape_of(c))
    }
}

impl Auditor for Shapes {
    ghost account = { λ s. record { title = codes "shapes"; seen = s.seen; bad = 0; faults = s.faults; noted = None } };

    fn name(&self) -> &str {
        "shapes"
    }

    fn seen(&self) -> u64 {
        self.seen
    }

    fn bad(&self) -> u64 {
        0
    }

    fn faults(&self) -> u64 {
        self.faults
    }

    fn note(&mut self, _alloc: Global, c: &Cert) -> Result<bool, AuditFault> {
        if !self.is_next(c) {
            self.faults = self.faults.saturating_add(1);
            return Err(AuditFault::Failed);
        }
        self.seen = self.seen.saturating_add(1);
        Ok(true)
    }
}
