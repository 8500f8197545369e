// The lines of the text.
ghost use Rattle.std.specs.Prelude.{◌≡◌, ◌+◌, ◌^◌, ◌<◌, ◌≤◌, length, option_map, IfSome, false};
ghost use Rattle.std.specs.Iterator.{item_count};
ghost use Rattle.tables.specs.Breaks.{is_end, First};
ghost use Rattle.tables.specs.Steps.{TakesLine, skip_of};
ghost use Rattle.tables.specs.Text.{lines_of, is_blank};

use crate::breaks::next_break;
use crate::words::Words;

// A line of the text, without its newline, and its number, from 1.
#[derive(Clone, Copy)]
pub struct Line<'a> {
    pub text: &'a [u8],
    pub number: usize,
}

impl Line<'_> {
    // Whether the line has no word.
    pub(crate) fn is_blank(self) -> bool
        ensures { result ≡ is_blank self.entry.text.now }
    {
        Words::new(self.text).next().is_none()
    }
}

// What is left of the text, line by line, and the number of the next line. Each line before it had at least its newline,
// so the number and the bytes that are left stay below 2 ^ 64 together.
#[derive(Drop)]
pub struct Lines<'a> {
    rest: &'a [u8],
    pub number: usize,
    ghost first: { 1 ≤ number },
    ghost few: { number + length rest.now < 2 ^ 64 },
}

// Where the first line ends: at its newline or the text's end. By `next_break` and from break to break, since the reader
// looks for breaks in one place only; so no `for` counts.
fn line_end(text: &[u8]) -> usize
    ensures { First is_end text.now 0 result }
{
    let mut at = next_break(text, 0);
    while at < text.len() && text[at] != b'\n' {
        at = next_break(text, at + 1);
    }
    at
}

impl<'a> Iterator for Lines<'a> {
    type Item = Line<'a>;

    ghost next_gives = { λ s r t. TakesLine (s.number, lines_of s.rest.now) (option_map (λ line. (line.number, line.text.now)) r) (t.number, lines_of t.rest.now) };

    ghost remaining = { item_count (λ s. lines_of s.rest.now) };

    fn next(&mut self) -> Option<Line<'a>> {
        if self.rest.is_empty() {
            return None;
        }
        let (text, after) = self.rest.split_at(line_end(self.rest));
        let number = self.number;
        // without the newline, which the last line may lack
        self.rest = match after {
            [_, rest @ ..] => rest,
            [] => after,
        };
        self.number = number + 1;
        Some(Line { text, number })
    }
}

impl<'a> Lines<'a> {
    pub(crate) fn new(input: &'a [u8]) -> Lines<'a>
        ensures text { result.rest.now ≡ input.now }
        ensures first { result.number ≡ 1 }
    {
        Lines {
            rest: input,
            number: 1,
        }
    }

    // The next line that has a word.
    pub(crate) fn next_full(&mut self) -> Option<Line<'a>>
        ensures next { TakesLine (skip_of self.old.number (lines_of self.old.rest.now)) (option_map (λ line. (line.number, line.text.now)) result) (self.new.number, lines_of self.new.rest.now) }
        ensures full { IfSome result (λ line. is_blank line.text.now ≡ false) }
    {
        self.find(|line| !line.is_blank())
    }
}
