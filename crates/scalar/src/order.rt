// The order of times: that of their numbers. These are functions of a kind, and no `impl Ord` for its times: that would be a
// second order, to be proved alike with the first.
ghost use Rattle.std.specs.Prelude.{◌≡◌, T};
ghost use Rattle.std.specs.declared.cmp.Ordering.TheVariants.{Less, Equal, Greater};
ghost use Rattle.scalar.specs.Kind.{before, equal};
ghost use Rattle.scalar.specs.Order.{Ordered};

use crate::Scalar;
use std::cmp::Ordering;

pub fn is_before<N: Scalar>(t: N::Time, u: N::Time) -> bool
    ensures { result ≡ before N.Scalar.kind t u }
{
    N::value(t).before(N::value(u))
}

pub fn is_equal<N: Scalar>(t: N::Time, u: N::Time) -> bool
    ensures { result ≡ equal N.Scalar.kind t u }
{
    N::value(t).equals(N::value(u))
}

// Which of the three holds of two times: exactly one does, in every number kind.
pub fn compare<N: Scalar>(t: N::Time, u: N::Time) -> Ordering
    ensures which { elim result [ Less ↦ T (before N.Scalar.kind t u) | Equal ↦ T (equal N.Scalar.kind t u) | Greater ↦ T (before N.Scalar.kind u t) ] }
    ensures order { Ordered (before N.Scalar.kind) (equal N.Scalar.kind) }
{
    if is_before::<N>(t, u) {
        Ordering::Less
    } else if is_equal::<N>(t, u) {
        Ordering::Equal
    } else {
        Ordering::Greater
    }
}
