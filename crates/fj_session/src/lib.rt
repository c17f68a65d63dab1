//! Sessions: what is read, what is answered, and what is written.
#![tactic(auto)]

mod answering;
mod asked;
mod auditing;
mod certified;
mod ideals;
mod jumps;
pub mod laws;
mod lets;
mod limits;
mod names;
mod part_rows;
mod points;
mod printing;
mod program;
mod shown;
mod splittings;
mod summary;
mod thresholds;
pub mod types;
mod words;
mod writing;

pub use answering::answer;
pub use printing::print_answer;
pub use program::run;
