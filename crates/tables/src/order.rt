// The order of the checkpoints.
ghost use Rattle.std.specs.Prelude.{◌+◌, ◌^◌, ◌<◌, ◌≤◌, length};
ghost use Rattle.tables.specs.Parts.{joined};
ghost use Rattle.tables.specs.Rides.{order_of};
ghost use Rattle.tables.specs.Tables.{Tells};

use crate::faults::{Fault, Wrong};

// Whether there are checkpoints, and their segments are 0 in the first row and in each later one the same as in the row
// before or one more. The first row is the line `first`.
pub(crate) fn ordered(rows: &[[i64; 7]], first: usize) -> Result<(), Fault>
    requires rows { first + length rows.now < 2 ^ 64 }
    requires below { 1 ≤ first }
    ensures { Tells (order_of first (joined rows.now)) result }
{
    let [start, later @ ..] = rows else {
        return Err(Fault::Line(first - 1, Wrong::NoCheckpoint));
    };
    if start[0] != 0 {
        return Err(Fault::Line(first, Wrong::Order));
    }
    let mut last = 0;
    for (k, row) in later.iter().enumerate() {
        let segment = row[0];
        if segment != last && segment != last + 1 {
            return Err(Fault::Line(first + 1 + k, Wrong::Order));
        }
        last = segment;
    }
    Ok(())
}
