// What is told of a fault.
use crate::faults::{Fault, Wrong};
use std::error::Error;
use std::fmt;

impl fmt::Display for Wrong {
    fn fmt<W: fmt::Write>(&self, f: &mut fmt::Formatter<W>) -> fmt::Result {
        match *self {
            Wrong::NotWhole => f.write_str("not a whole number"),
            Wrong::TooLarge => f.write_str("a number is too large"),
            Wrong::TooFew => f.write_str("too few numbers"),
            Wrong::TooMany => f.write_str("too many numbers"),
            Wrong::Names(part) => {
                let expected = part.names();
                write!(f, "the names '{expected}' are expected here")
            }
            Wrong::Missing(part) => {
                let expected = part.names();
                write!(f, "the table '{expected}' is missing")
            }
            Wrong::Extra => f.write_str("nothing may follow the row of settings"),
            Wrong::Order => f.write_str(
                "the segment is neither that of the row before nor the next, from 0 on",
            ),
            Wrong::NoCheckpoint => f.write_str("no checkpoint stands below these names"),
            Wrong::NoSettings => f.write_str("no row stands below these names"),
        }
    }
}

impl fmt::Display for Fault {
    fn fmt<W: fmt::Write>(&self, f: &mut fmt::Formatter<W>) -> fmt::Result {
        match *self {
            Fault::Memory => f.write_str("out of memory"),
            Fault::Line(number, wrong) => write!(f, "line {number}: {wrong}"),
        }
    }
}

impl Error for Fault {}
