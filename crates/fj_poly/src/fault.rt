//! Why a product is refused.
ghost use Rattle.std.specs.Prelude.{◌≡◌};
ghost use Rattle.fj_poly.specs.declared.fault.PolyFault.TheVariants.{Memory};

use std::alloc::{AllocError, AllocFailed};
use thiserror::Error;

/// Why a product is refused.
#[derive(Debug, Drop, Error)]
pub enum PolyFault {
    /// A term of the result has a total degree above 2^40.
    #[error("a total degree above 2^40")]
    High,
    #[error("out of memory")]
    Memory,
}

impl From<AllocError> for PolyFault {
    ghost from_gives = { λ _ e. e ≡ Memory };

    fn from(_e: AllocError) -> PolyFault {
        PolyFault::Memory
    }
}

impl<T: Drop> From<AllocFailed<T>> for PolyFault {
    ghost from_gives = { λ _ e. e ≡ Memory };

    fn from(_e: AllocFailed<T>) -> PolyFault {
        PolyFault::Memory
    }
}
