// Whole numbers of either sign as numbers of a kind.
ghost use Rattle.std.specs.Prelude.{◌≡◌};
ghost use Rattle.scalar.specs.Kind.{integer as integer_of};

use crate::Scalar;

// A function and no `From<i64>`: N stands for any type, and such an impl may be written only beside the type.
pub fn integer<N: Scalar>(n: i64) -> N
    ensures { result ≡ integer_of N.Scalar.kind.ops n }
{
    let size = N::whole(n.unsigned_abs());
    if n < 0 { -size } else { size }
}
