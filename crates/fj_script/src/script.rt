//! What an accepted session holds.
use super::question::AskedList;
use super::value::ValueList;
use fj_text::Names;

/// The ring of a session, GF(p) in these variables, and the values by their names in order of declaration.
#[derive(Drop)]
pub struct Env {
    pub p: u64,
    pub vars: Names,
    pub values: ValueList,
}

/// An accepted session: the ring with its values, and the questions.
#[derive(Drop)]
pub struct Script {
    pub env: Env,
    pub asked: AskedList,
}
