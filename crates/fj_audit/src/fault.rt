//! Why an auditor noted nothing.

use thiserror::Error;

/// An auditor noted nothing.
#[derive(Clone, Copy, Debug, PartialEq, Eq, Error)]
pub enum AuditFault {
    /// It failed, and is out.
    #[error("an auditor failed")]
    Failed,
    /// Memory was wanting.
    #[error("out of memory")]
    Memory,
}
