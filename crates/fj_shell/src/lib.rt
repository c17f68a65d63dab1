//! What programs that read a session share, whatever their words are: the session is read whole, its names stand for
//! polynomials and ideals, and texts are written with a status.
#![tactic(auto)]

mod fault_line;
mod input;
mod named;
mod output;
mod script;
pub mod status;

pub use fault_line::{print_fault, push_decimal};
pub use input::{ReadFault, read_session};
pub use named::{NamedIdeal, generators_at, named_ideal_at, point_at, polynomial_at};
pub use output::{Unwritten, write_fault, write_text};
pub use script::{Unread, read_whole_script};
