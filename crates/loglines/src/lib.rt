// The lines of a log, read in parts of any length, and what is printed for it: what a line means and what is printed
// for an input are definitions of specs/, which the functions here equal. Rests on the numbers, crate numerals, on
// lines' fields, on printers, and on the judgement, crate judging.
#![tactic(auto)]

mod field;
mod line;
mod progress;
mod text;

pub use progress::{Feeding, begin, feed};
pub use text::{TEXT_ROOM, conclude};
