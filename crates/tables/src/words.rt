// The words of a line, which one blank or more separate.
ghost use Rattle.std.specs.Prelude.{◌≡◌};
ghost use Rattle.std.specs.Iterator.{YieldsFirstRef, item_count};
ghost use Rattle.tables.specs.Text.{words_of, same_words};

use crate::breaks::next_break;

// What is left of a line, word by word.
#[derive(Drop)]
pub struct Words<'a> {
    rest: &'a [u8],
}

impl<'a> Words<'a> {
    pub(crate) fn new(line: &'a [u8]) -> Words<'a>
        ensures { result.rest.now ≡ line.now }
    {
        Words { rest: line }
    }
}

impl<'a> Iterator for Words<'a> {
    type Item = &'a [u8];

    ghost next_gives = { YieldsFirstRef (λ s. words_of s.rest.now) };

    ghost remaining = { item_count (λ s. words_of s.rest.now) };

    fn next(&mut self) -> Option<&'a [u8]> {
        while let [_, after @ ..] = self.rest {
            let end = next_break(self.rest, 0);
            if end > 0 {
                let (word, rest) = self.rest.split_at(end);
                self.rest = rest;
                return Some(word);
            }
            self.rest = after;
        }
        None
    }
}

// Whether two lines have the same words.
pub(crate) fn same_words(a: &[u8], b: &[u8]) -> bool
    ensures { result ≡ same_words (words_of a.now) (words_of b.now) }
{
    Words::new(a).eq(Words::new(b))
}
