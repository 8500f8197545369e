// The tables of checkpoints and of samples.
ghost use Rattle.std.specs.Prelude.{vec_items};
ghost use Rattle.tables.specs.Numbers.{map_ok};
ghost use Rattle.tables.specs.Parts.{read_of};
ghost use Rattle.tables.specs.Rides.{checkpoints_of, samples_of};
ghost use Rattle.tables.specs.Tables.{Tells};
ghost use Rattle.tables.specs.Text.{lines_of};

use crate::faults::{Fault, Part};
use crate::lines::Lines;
use crate::number::Limit;
use crate::order::ordered;
use std::alloc::Global;

impl Lines<'_> {
    // Reads the table of checkpoints; their order is looked at once all its rows are read.
    pub(crate) fn checkpoints(&mut self, heap: Global, limit: Limit) -> Result<Vec<[i64; 7]>, Fault>
        ensures { Tells (checkpoints_of limit.most self.old.number (lines_of self.old.rest.now)) (map_ok (λ rows. read_of (vec_items rows) self.new) result) }
    {
        self.header(Part::Checkpoints)?;
        let first = self.number;
        let rows = self.rows(heap, limit)?;
        ordered(rows.as_slice(), first)?;
        Ok(rows)
    }

    // Reads the table of samples.
    pub(crate) fn samples(&mut self, heap: Global, limit: Limit) -> Result<Vec<[i64; 2]>, Fault>
        ensures { Tells (samples_of limit.most self.old.number (lines_of self.old.rest.now)) (map_ok (λ rows. read_of (vec_items rows) self.new) result) }
    {
        self.header(Part::Samples)?;
        self.rows(heap, limit)
    }
}
