//! Answers with their certificates.
ghost use Rattle.fj_session.specs.Outcome.{IsAlone};

use super::types::Answer;
use fj_plain::Cert;
use std::alloc::Global;

/// An answer, and its certificates in the order in which they are handed on.
#[derive(Drop)]
pub(crate) struct Certified {
    pub answer: Answer,
    pub certificates: Vec<Cert>,
}

impl Certified {
    /// The answer without certificates.
    pub(crate) fn without(alloc: Global, answer: Answer) -> Certified
        ensures { IsAlone answer result }
    {
        Certified {
            answer,
            certificates: Vec::new(alloc),
        }
    }
}
