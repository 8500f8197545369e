// The table of settings, which ends the text.
ghost use Rattle.tables.specs.Rides.{end_of, last_of, settings_of};
ghost use Rattle.tables.specs.Tables.{Tells};
ghost use Rattle.tables.specs.Text.{lines_of};

use crate::faults::{Fault, Part, Wrong};
use crate::lines::Lines;
use crate::number::Limit;

impl Lines<'_> {
    // Only blank lines may be left.
    #[tactic(auto, using(crate::proofs::Lining::end_skip))]
    fn at_end(&mut self) -> Result<(), Fault>
        ensures { Tells (end_of self.old.number (lines_of self.old.rest.now)) result }
    {
        match self.next_full() {
            Some(line) => Err(Fault::Line(line.number, Wrong::Extra)),
            None => Ok(()),
        }
    }

    // Reads the one row of five numbers, right below the names, and sees that nothing follows.
    fn last_row(&mut self, limit: Limit) -> Result<[i64; 5], Fault>
        ensures { Tells (last_of limit.most self.old.number (lines_of self.old.rest.now)) result }
    {
        let none = Fault::Line(self.number - 1, Wrong::NoSettings);
        let Some(line) = self.next() else {
            return Err(none);
        };
        if line.is_blank() {
            return Err(none);
        }
        let row = line.row(limit)?;
        self.at_end()?;
        Ok(row)
    }

    // Reads the table of settings.
    pub(crate) fn settings(&mut self, limit: Limit) -> Result<[i64; 5], Fault>
        ensures { Tells (settings_of limit.most self.old.number (lines_of self.old.rest.now)) result }
    {
        self.header(Part::Settings)?;
        self.last_row(limit)
    }
}
