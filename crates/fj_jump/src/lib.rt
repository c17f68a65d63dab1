//! The F-jumping numbers of a polynomial among the candidates C_e, and the gaps in which others may lie, by bisection over
//! the test ideals (Blickle, Mustață and Smith 2008).
#![tactic(auto)]

mod bisecting;
mod limits;
mod period_limits;
mod rows;

pub use bisecting::search;
pub use limits::Limits;
pub use rows::{GapList, GapRow, JumpList, JumpRow, Jumps};
