// Entries of slices: zero past their end.
ghost use Rattle.std.specs.Prelude.{◌≡◌};
ghost use Rattle.scalar.specs.Vectors.{at};

use scalar::Scalar;

pub(crate) fn entry<N: Scalar>(xs: &[N], i: usize) -> N
    ensures { result ≡ at N.Scalar.kind.ops xs.now i }
{
    xs.get(i).copied().unwrap_or_else(|| N::whole(0))
}
