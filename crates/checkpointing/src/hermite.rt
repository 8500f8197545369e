// The value of the cubic that has given states and slopes at two times.
ghost use Rattle.std.specs.Prelude.{◌≡◌, length};
ghost use Rattle.checkpointing.specs.Knots.{share, cubic, hermite as hermite_of, between};
ghost use Rattle.checkpointing.specs.Weights.{Weighs};

use scalar::Scalar;

// A state and its slope at a time.
#[derive(Clone, Copy)]
pub struct Knot<N> {
    pub t: N,
    pub u: N,
    pub f: N,
}

// What the cubic's terms are multiplied by: the same for every entry of a state.
#[derive(Clone, Copy)]
pub(crate) struct Weights<N> {
    theta: N,
    u0: N,
    q: N,
    f0: N,
    du: N,
    f1: N,
}

impl<N: Scalar> Weights<N> {
    // At t between knots at t0 and t1: d is their distance, theta the share of it that lies before t.
    pub(crate) fn between(t0: N, t1: N, t: N) -> Weights<N>
        ensures { Weighs N.Scalar.kind.ops (N.Scalar.kind.ops.minus t1 t0) (share N.Scalar.kind.ops t0 t1 t) result }
    {
        let d = t1 - t0;
        let theta = (t - t0) / d;
        Weights::new(d, theta)
    }

    fn new(d: N, theta: N) -> Weights<N>
        ensures { Weighs N.Scalar.kind.ops d theta result }
    {
        let one = N::whole(1);
        let back = theta - one;
        let twice = N::whole(2) * theta;
        Weights {
            theta,
            u0: one - theta,
            q: theta * back,
            f0: d * back,
            du: one - twice,
            f1: d * theta,
        }
    }

    // The value for one entry of the state.
    pub(crate) fn value(self, u0: N, f0: N, u1: N, f1: N) -> N
        ensures { (d θ : N) → Weighs N.Scalar.kind.ops d θ self → result ≡ cubic N.Scalar.kind.ops d θ u0 f0 u1 f1 }
    {
        let q = self.f0 * f0 + self.du * (u1 - u0) + self.f1 * f1;
        self.u0 * u0 + self.q * q + self.theta * u1
    }
}

// The value at t of the cubic through two knots.
pub fn hermite<N: Scalar>(a: Knot<N>, b: Knot<N>, t: N) -> N
    ensures { result ≡ hermite_of N.Scalar.kind.ops a.t a.u a.f b.t b.u b.f t }
{
    Weights::between(a.t, b.t, t).value(a.u, a.f, b.u, b.f)
}

// A knot of a list: its time, and its state and slope where they lie.
#[derive(Clone, Copy)]
pub(crate) struct Row<'a, N> {
    pub(crate) t: N,
    pub(crate) u: &'a [N],
    pub(crate) f: &'a [N],
}

// The state at t between two knots. That states and slopes are as long as the buffer is asked here, and is no ghost field of
// a knot: a struct with one is not copied, and reads through one that is passed by value are not proved.
pub(crate) fn fill_between<N: Scalar>(a: Row<N>, b: Row<N>, t: N, out: &mut [N])
    requires first { (length a.u.now ≡ length out.old) × (length a.f.now ≡ length out.old) }
    requires second { (length b.u.now ≡ length out.old) × (length b.f.now ≡ length out.old) }
    ensures { out.new ≡ between N.Scalar.kind.ops (record { t = a.entry.t; u = a.entry.u.now; f = a.entry.f.now }) (record { t = b.entry.t; u = b.entry.u.now; f = b.entry.f.now }) t }
{
    let w = Weights::between(a.t, b.t, t);
    for (i, x) in out.iter_mut().enumerate() {
        *x = w.value(a.u[i], a.f[i], b.u[i], b.f[i]);
    }
}
