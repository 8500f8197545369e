// A row of numbers.
ghost use Rattle.std.specs.Prelude.{◌≡◌};
ghost use Rattle.tables.specs.Tables.{row_of};
ghost use Rattle.tables.specs.Text.{words_of};

use crate::faults::Wrong;
use crate::number::Limit;
use crate::words::Words;

// Reads a line of W numbers. The words are read from left to right, so a bad word within the width is told before that
// there are too few or too many.
pub(crate) fn row<const W: usize>(line: &[u8], limit: Limit) -> Result<[i64; W], Wrong>
    ensures { result ≡ row_of limit.most W (words_of line.now) }
{
    let mut words = Words::new(line);
    let mut row = [0; W];
    for z in row.iter_mut() {
        let Some(word) = words.next() else {
            return Err(Wrong::TooFew);
        };
        *z = limit.whole(word)?;
    }
    match words.next() {
        Some(_) => Err(Wrong::TooMany),
        None => Ok(row),
    }
}
