//! Sessions: their declarations and questions, or the first place where they are wrong.
#![tactic(auto)]

mod ask;
mod declaration;
mod expression;
mod fault;
mod items;
mod number;
mod question;
mod reading;
mod ring;
pub mod rules;
mod script;
mod session;
mod statement;
mod value;

pub use fault::{Fault, FaultKind, ScriptFault};
pub use question::{Asked, AskedList, Question};
pub use reading::read_script;
pub use script::{Env, Script};
pub use value::{Value, ValueList};
