// Lines of `totals`, read: what a line means is a definition of specs/, and the functions here equal it.
// Rests on the commands of a letter and fields, crate commands; on the machine's script, and on what is printed, for
// its specs alone.
#![tactic(auto)]

mod command;
mod reader;

pub use command::{first_field, parse};
pub use reader::Reader;
