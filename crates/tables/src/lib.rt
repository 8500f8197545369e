// Reads the text of a ride: three tables of whole numbers, each a line of names and lines of numbers under it, with a
// blank line between two tables.
#![tactic(auto)]

mod breaks;
mod faults;
mod lines;
mod message;
mod number;
mod order;
mod points;
mod reader;
mod row;
mod settings;
mod table;
mod words;

pub use breaks::next_break;
pub use faults::{Fault, Part, Wrong};
pub use reader::{Ride, read};
