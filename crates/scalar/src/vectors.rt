// Sums and additions on slices. Where two operands differ in length the places count that both have.
ghost use Rattle.std.specs.Prelude.{◌≡◌};
ghost use Rattle.scalar.specs.Vectors.{placewise, sum_of, dot_of, scaling};

use crate::Scalar;

// Starts at zero and adds by ascending index.
pub fn sum<N: Scalar>(xs: &[N]) -> N
    ensures { result ≡ sum_of N.Scalar.kind.ops xs.now }
{
    let mut sum = N::whole(0);
    for x in xs {
        sum = sum + *x;
    }
    sum
}

// The sum of the products, in the same order.
#[tactic(auto, unfolding(crate::specs::Vectors::dot_of))]
pub fn dot<N: Scalar>(xs: &[N], ys: &[N]) -> N
    ensures { result ≡ dot_of N.Scalar.kind.ops xs.now ys.now }
{
    let mut sum = N::whole(0);
    for (x, y) in xs.iter().zip(ys) {
        sum = sum + *x * *y;
    }
    sum
}

// Replaces each y by f(y, x) at every place that both slices have, and looks at no other: one may be much longer. By place
// and not by `iter_mut().zip(xs)`, of which a proof learns nothing about the elements that were written.
fn combine<N: Copy, F: Fn(N, N) -> N>(ys: &mut [N], xs: &[N], f: F)
    requires { F.IsAlwaysCallable f }
    ensures { (op : N → N → N) → ((y x r : N) → F.post f y x r → r ≡ op y x) → ys.new ≡ placewise op ys.old xs.now }
{
    for i in 0..ys.len().min(xs.len()) {
        ys[i] = f(ys[i], xs[i]);
    }
}

fn plus<N: Scalar>(y: N, x: N) -> N
    ensures { result ≡ N.Scalar.kind.ops.plus y x }
{
    y + x
}

fn minus<N: Scalar>(y: N, x: N) -> N
    ensures { result ≡ N.Scalar.kind.ops.minus y x }
{
    y - x
}

fn plus_scaled<N: Scalar>(y: N, a: N, x: N) -> N
    ensures { result ≡ scaling N.Scalar.kind.ops a y x }
{
    y + a * x
}

// ys := ys + xs
pub fn add_assign<N: Scalar>(ys: &mut [N], xs: &[N])
    ensures { ys.new ≡ placewise N.Scalar.kind.ops.plus ys.old xs.now }
{
    combine(ys, xs, plus);
}

// ys := ys - xs
pub fn sub_assign<N: Scalar>(ys: &mut [N], xs: &[N])
    ensures { ys.new ≡ placewise N.Scalar.kind.ops.minus ys.old xs.now }
{
    combine(ys, xs, minus);
}

// ys := ys + a·xs
pub fn add_scaled<N: Scalar>(ys: &mut [N], a: N, xs: &[N])
    ensures { ys.new ≡ placewise (scaling N.Scalar.kind.ops a) ys.old xs.now }
{
    combine(ys, xs, |y, x| plus_scaled(y, a, x));
}
