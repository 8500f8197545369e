// A table: its line of names and its rows.
ghost use Rattle.std.specs.Prelude.{◌≡◌, ◌+◌, ◌≤◌, IfOk, vec_items, vec_len};
ghost use Rattle.tables.specs.Numbers.{map_ok};
ghost use Rattle.tables.specs.Parts.{left_of, read_of};
ghost use Rattle.tables.specs.Tables.{Tells, names_of, head_of, rows_of, at_line, row_of};
ghost use Rattle.tables.specs.Text.{lines_of, words_of};

use crate::faults::{Fault, Part, Wrong};
use crate::lines::{Line, Lines};
use crate::number::Limit;
use crate::row::row;
use crate::words::same_words;
use std::alloc::Global;

// How many numbers the first rows hold: about a power of two, whatever their width, so that the memory of a table's rows
// grows as that of a list of numbers does.
const FIRST: usize = 512;

impl Part {
    // The names of the table's columns, in one line.
    pub(crate) fn names(self) -> &'static str
        ensures { result.now ≡ names_of self }
    {
        match self {
            Part::Checkpoints => "segment t h z v dz dv",
            Part::Samples => "t dg",
            Part::Settings => "start k c g b",
        }
    }
}

impl Line<'_> {
    // The line's row of W numbers.
    pub(crate) fn row<const W: usize>(self, limit: Limit) -> Result<[i64; W], Fault>
        ensures { result ≡ at_line self.entry.number (row_of limit.most W (words_of self.entry.text.now)) }
    {
        row(self.text, limit).map_err(|wrong| Fault::Line(self.number, wrong))
    }
}

impl Lines<'_> {
    // Finds the table's line of names, before which only blank lines may stand.
    #[tactic(auto, using(crate::proofs::Lining::head_skip))]
    pub(crate) fn header(&mut self, part: Part) -> Result<(), Fault>
        ensures { Tells (head_of part self.old.number (lines_of self.old.rest.now)) (map_ok (λ _. left_of self.new) result) }
    {
        let Some(line) = self.next_full() else {
            return Err(Fault::Line(self.number, Wrong::Missing(part)));
        };
        if !same_words(line.text, part.names().as_bytes()) {
            return Err(Fault::Line(line.number, Wrong::Names(part)));
        }
        Ok(())
    }

    // Reads rows of W numbers up to a blank line or the end of the text.
    pub(crate) fn rows<const W: usize>(
        &mut self,
        heap: Global,
        limit: Limit,
    ) -> Result<Vec<[i64; W]>, Fault>
        ensures rows { Tells (rows_of limit.most W self.old.number (lines_of self.old.rest.now)) (map_ok (λ rows. read_of (vec_items rows) self.new) result) }
        ensures lines { IfOk result (λ rows. self.old.number + vec_len rows ≤ self.new.number) }
    {
        let mut rows = Vec::with_capacity(heap, FIRST / W.max(1) + 1)?;
        while let Some(line) = self.next() {
            if line.is_blank() {
                break;
            }
            rows.push(line.row(limit)?)?;
        }
        Ok(rows)
    }
}
