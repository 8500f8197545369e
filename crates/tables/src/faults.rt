// Why a text is no ride.
ghost use Rattle.std.specs.Prelude.{◌≡◌};
ghost use Rattle.tables.specs.declared.faults.Fault.TheVariants.{Memory};

use std::alloc::{AllocError, AllocFailed};

// The tables of the text, in their order: the parts of a ride.
#[derive(Clone, Copy, Debug)]
pub enum Part {
    Checkpoints,
    Samples,
    Settings,
}

// What can be wrong with a line.
#[derive(Clone, Copy, Debug)]
pub enum Wrong {
    // a word of a row is no whole number
    NotWhole,
    // a number of a row is too far from 0
    TooLarge,
    TooFew,
    TooMany,
    // the line where the table's names belong has other words
    Names(Part),
    // the text ends before the table's names
    Missing(Part),
    // words after the row of settings
    Extra,
    // a checkpoint's segment is neither that of the row before nor the next one
    Order,
    NoCheckpoint,
    NoSettings,
}

// Why nothing was read: want of memory, or the first line that is wrong, with its number from 1.
#[derive(Clone, Copy, Debug)]
pub enum Fault {
    Memory,
    Line(usize, Wrong),
}

// By hand: a derive would fill a field, and `Memory` has none; and `read` says that want of memory is told as `Memory`.
impl From<AllocError> for Fault {
    ghost from_gives = { λ _ r. r ≡ Memory };

    fn from(_e: AllocError) -> Fault {
        Fault::Memory
    }
}

impl<T: Drop> From<AllocFailed<T>> for Fault {
    ghost from_gives = { λ _ r. r ≡ Memory };

    fn from(_e: AllocFailed<T>) -> Fault {
        Fault::Memory
    }
}
