//! Auditors: checkers of the caller's own, which are shown the certificates of the answers.
#![tactic(auto)]

mod auditor;
mod copy;
mod fault;
mod flaky;
mod handing;
mod keep;
pub mod laws;
mod recheck;
mod tally;

pub use auditor::Auditor;
pub use fault::AuditFault;
pub use flaky::Flaky;
pub use handing::{hand_on, hand_on_all, sweep};
pub use keep::Keep;
pub use recheck::Recheck;
pub use tally::Tally;
