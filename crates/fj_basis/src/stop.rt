//! Why a calculation stops.
ghost use Rattle.std.specs.Prelude.{◌≡◌};
ghost use Rattle.fj_basis.specs.declared.stop.Stop.TheVariants.{Memory};

use fj_plain::Kept;
use std::alloc::{AllocError, AllocFailed};
use thiserror::Error;

/// Why a calculation with ideals stops without an answer. A list that a run was given is kept with the run's order.
#[derive(Debug, Drop, Error)]
pub enum Stop {
    /// The run on this list made as many turns as its budget allows, and pairs are pending.
    #[error("the budget of turns is spent")]
    Pairs(Kept),
    /// In the run on this list a sugar above 2^40 arises.
    #[error("a degree above 2^40 in a run")]
    High(Kept),
    /// A product that is needed has a term of total degree above 2^40.
    #[error("a degree above 2^40 in a product")]
    Product(Kept),
    #[error("out of memory")]
    Memory,
}

impl From<AllocError> for Stop {
    ghost from_gives = { λ _ e. e ≡ Memory };

    fn from(_e: AllocError) -> Stop {
        Stop::Memory
    }
}

impl<T: Drop> From<AllocFailed<T>> for Stop {
    ghost from_gives = { λ _ e. e ≡ Memory };

    fn from(_e: AllocFailed<T>) -> Stop {
        Stop::Memory
    }
}
