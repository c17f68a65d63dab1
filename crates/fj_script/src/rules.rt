//! What the rules of sessions speak of. The rules stand in `specs/`; whoever states a law on them names these types, and no
//! caller of `read_script` needs them.

pub use crate::ask::{Ask, Frobenius, OneIdeal, TestIdeal, TwoIdeals};
pub use crate::fault::LineFault;
pub use crate::question::Target;
pub use crate::statement::Keyword;
pub use crate::value::Kind;
