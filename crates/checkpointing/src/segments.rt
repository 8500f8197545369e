// Which segment of a ride an instant belongs to.
ghost use Rattle.std.specs.Prelude.{◌≡◌, length};
ghost use Rattle.checkpointing.specs.Segments.{belongs as belongs_to, segment_of, Last};

use scalar::Scalar;
use scalar::order::{is_before, is_equal};

// An instant at a segment's end belongs to it only in the ride's last segment: elsewhere the next segment begins there.
pub fn belongs<N: Scalar>(last: bool, first: N::Time, end: N::Time, t: N::Time) -> bool
    ensures { result ≡ belongs_to N.Scalar.kind last first end t }
{
    !is_before::<N>(t, first) && (!is_before::<N>(end, t) && (last || !is_equal::<N>(t, end)))
}

// The last segment that t belongs to, of segments that are given by their two ends.
pub fn segment_of<N: Scalar>(ends: &[(N::Time, N::Time)], t: N::Time) -> Option<usize>
    ensures answer { result ≡ segment_of N.Scalar.kind ends.now t }
    ensures last { Last N.Scalar.kind ends.now t (length ends.now) result }
{
    let mut rest = ends;
    while let [below @ .., (first, end)] = rest {
        if belongs::<N>(rest.len() == ends.len(), *first, *end, t) {
            return Some(below.len());
        }
        rest = below;
    }
    None
}
