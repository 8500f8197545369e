// Whole numbers in decimal.
ghost use Rattle.std.specs.Prelude.{◌≡◌, ◌^◌, ◌<◌, ◌≤◌, IfOk};
ghost use Rattle.tables.specs.Numbers.{size_of, whole_of};
ghost use Rattle.tables.specs.Rides.{limit_of};

use crate::faults::Wrong;

// The largest distance from 0 that an `i64` holds on both sides.
const MOST: u64 = i64::MAX as u64;

// How far from 0 a number may be.
#[derive(Clone, Copy)]
pub struct Limit {
    most: u64,
    ghost fits: { most < 2 ^ 63 },
}

impl Limit {
    // No number may be further from 0 than `largest`.
    pub(crate) fn new(largest: u64) -> Limit
        ensures { result.most ≡ limit_of largest }
    {
        Limit {
            most: largest.min(MOST),
        }
    }

    // The number that the digits write, if they are digits and it is within the limit. However many digits follow, the
    // number on the way stays at most one past the limit, so that it cannot wrap and the rest is still read.
    fn size(self, digits: &[u8]) -> Result<u64, Wrong>
        ensures value { result ≡ size_of self.most digits.now }
        ensures bound { IfOk result (λ n. n ≤ self.most) }
    {
        if digits.is_empty() {
            return Err(Wrong::NotWhole);
        }
        let past = self.most + 1;
        let mut n: u64 = 0;
        for b in digits {
            if !b.is_ascii_digit() {
                return Err(Wrong::NotWhole);
            }
            n = n
                .saturating_mul(10)
                .saturating_add((*b - b'0') as u64)
                .min(past);
        }
        if n > self.most {
            return Err(Wrong::TooLarge);
        }
        Ok(n)
    }

    // The whole number that a word writes: digits, after a minus sign or none.
    pub(crate) fn whole(self, word: &[u8]) -> Result<i64, Wrong>
        ensures { result ≡ whole_of self.most word.now }
    {
        match word {
            [b'-', digits @ ..] => Ok(-(self.size(digits)? as i64)),
            _ => Ok(self.size(word)? as i64),
        }
    }
}
