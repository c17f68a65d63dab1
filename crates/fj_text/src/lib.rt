//! Texts: the names of variables, expressions as they are read, and values as they are printed.
#![tactic(auto)]

mod expression;
mod fault;
pub mod laws;
mod names;
mod power;
mod printed;
mod read;
mod reader;
mod scope;
mod token;
mod value;

pub use expression::read_expression;
pub use fault::{Cause, Fault, ReadFault, TextFault};
pub use names::Names;
pub use printed::{print_list, print_poly, print_ratio};
pub use read::read_expr;
pub use reader::Reader;
pub use scope::{Meaning, Scope};
pub use token::Token;
