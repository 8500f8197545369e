// What a boundary gives to every lane.
ghost use Rattle.std.specs.Prelude.{◌≡◌, ◌+◌, ◌*◌, ◌<◌, ◌≤◌, length, vec_len, if◌then◌else◌, nat_eq};
ghost use borrow.Rule.Slice.PartMut.{put_mid};
ghost use Rattle.adjoint.specs.Lanes.{lane_of};
ghost use Rattle.adjoint.specs.Reset.{gap_of, rate_of, small, alpha as alpha_of, at_root, alphas, rooted, entries_at, terms_at, terms_of};
ghost use Rattle.adjoint.specs.Rules.{cells_of};

use crate::faults::RuleFault;
use crate::reset::Boundary;
use crate::work::Crossing;
use equations::OdeEquations;
use equations::gather::gather;
use equations::op::{Op, Wrt};
use scalar::Scalar;
use scalar::matrix::product;
use scalar::vectors::{add_assign, dot, sub_assign};

impl<'a, N: Scalar> Boundary<'a, N> {
    // The root that is crossed, or refusals 9 to 12, in their order.
    pub(crate) fn root_of<E: OdeEquations<N>>(&self, eqn: &E) -> Result<usize, RuleFault<E::Fault>>
        ensures { result ≡ rooted N.Scalar.kind.ops (E.OdeEquations.model eqn.now) self.now.segment self.now.root }
    {
        // not by `ok_or`, which asks for a fault that may be dropped: a model's need not be
        let Some(r) = self.root else {
            return Err(RuleFault::NoRootIndex(self.segment));
        };
        if !eqn.has_reset() {
            return Err(RuleFault::NoReset(self.segment));
        }
        if eqn.nroots() == 0 {
            return Err(RuleFault::NoRoot(self.segment));
        }
        if r < eqn.nroots() {
            Ok(r)
        } else {
            Err(RuleFault::RootIndex(r))
        }
    }

    // The entries of one function there, as a matrix; at a refusal what `out` holds is free.
    pub(crate) fn gather<E: OdeEquations<N>>(
        &self,
        eqn: &E,
        op: Op,
        wrt: Wrt,
        columns: usize,
        out: &mut [N],
    ) -> Result<(), RuleFault<E::Fault>>
        requires { columns ≡ 0 → length out.old ≡ 0 }
        ensures { entries_at N.Scalar.kind.ops (E.OdeEquations.model eqn.now) op wrt columns self.now.t self.now.y.now (length out.old) ≡ cells_of result out.new }
    {
        gather(eqn, op, wrt, columns, self.t, self.y, out)?;
        Ok(())
    }
}

// gap := (p × below + pt) - above
fn slope_gap<N: Scalar>(p: &[N], pt: &[N], below: &[N], above: &[N], gap: &mut [N])
    requires { length p.now ≡ length gap.old * length below.now }
    ensures { gap.new ≡ gap_of N.Scalar.kind.ops p.now pt.now below.now above.now (length gap.old) }
{
    let _ = product(p, below, gap);
    add_assign(gap, pt);
    sub_assign(gap, above);
}

// How fast root r is crossed; `rates` is working space.
fn crossing_rate<N: Scalar>(q: &[N], qt: &[N], below: &[N], r: usize, rates: &mut [N]) -> N
    requires { (length q.now ≡ length rates.old * length below.now) × ((length qt.now ≡ length rates.old) × (r < length rates.old)) }
    ensures { result ≡ rate_of N.Scalar.kind.ops q.now qt.now below.now (length rates.old) r }
{
    let _ = product(q, below, rates);
    rates[r] + qt[r]
}

fn is_small<N: Scalar>(rate: N) -> bool
    ensures { result ≡ small N.Scalar.kind.ops rate }
{
    let limit = N::whole(100) * N::eps();
    rate.abs().at_most(limit)
}

fn place_of<N: Scalar>(i: usize, r: usize, a: N) -> N
    ensures { result ≡ (if nat_eq i r then a else N.Scalar.kind.ops.whole 0) }
{
    if i == r { a } else { N::whole(0) }
}

// a at r, and zero elsewhere
fn fill_at_root<N: Scalar>(part: &mut [N], r: usize, a: N)
    ensures { part.new ≡ at_root N.Scalar.kind.ops (length part.old) r a }
{
    for (i, x) in part.iter_mut().enumerate() {
        *x = place_of(i, r, a);
    }
}

// What gives each lane its α: the gap, as wide as a lane's s, how fast the root is crossed, and which of the roots it is.
#[derive(Clone, Copy)]
pub(crate) struct Alphas<'a, N> {
    pub(crate) gap: &'a [N],
    pub(crate) rate: N,
    pub(crate) root: usize,
    pub(crate) roots: usize,
}

impl<'a, N: Scalar> Alphas<'a, N> {
    fn alpha(&self, s: &[N]) -> N
        ensures { result ≡ alpha_of N.Scalar.kind.ops self.now.gap.now self.now.rate s.now }
    {
        dot(s, self.gap) / self.rate
    }

    // Lane i of all s: its α, into its own places of `out`.
    fn fill_lane(&self, i: usize, s: &[N], out: &mut [N])
        requires states { i * length self.now.gap.now + length self.now.gap.now ≤ length s.now }
        requires roots { i * self.now.roots + self.now.roots ≤ length out.old }
        ensures { out.new ≡ put_mid (i * self.now.roots) self.now.roots out.old (at_root N.Scalar.kind.ops self.now.roots self.now.root (alpha_of N.Scalar.kind.ops self.now.gap.now self.now.rate (lane_of (length self.now.gap.now) s.now i))) }
    {
        let a = i * self.gap.len();
        let b = i * self.roots;
        let alpha = self.alpha(&s[a..a + self.gap.len()]);
        fill_at_root(&mut out[b..b + self.roots], self.root, alpha);
    }

    // Every lane, with as many places as there are roots.
    #[tactic(auto, using(scalar::proofs::Rows::row_within))]
    pub(crate) fn fill(&self, s: &[N], lanes: usize, out: &mut [N])
        requires { (length s.now ≡ lanes * length self.now.gap.now) × (length out.old ≡ lanes * self.now.roots) }
        ensures { out.new ≡ alphas N.Scalar.kind.ops self.now.gap.now self.now.rate self.now.roots self.now.root (length self.now.gap.now) s.now lanes }
    {
        // Not by `chunks_mut`: there may be no roots, and of what it lent a proof knows the length alone. `Product::meet` has
        // this loop too: with the step as a closure its equation would be a relation over the closure's calls.
        for i in 0..lanes {
            self.fill_lane(i, s, out);
        }
    }
}

impl<N: Scalar + Drop> Crossing<N> {
    // At a boundary: the reset's and the root's entries by state, what the slope below lacks to the one above, and as the
    // answer how fast root r is crossed.
    pub(crate) fn fill<E: OdeEquations<N>>(
        &mut self,
        eqn: &E,
        r: usize,
        boundary: &Boundary<N>,
    ) -> Result<N, RuleFault<E::Fault>>
        requires sizes { (vec_len self.now.gap ≡ (E.OdeEquations.model eqn.now).states) × (vec_len self.now.rates ≡ (E.OdeEquations.model eqn.now).roots) }
        requires slope { length boundary.now.below.now ≡ vec_len self.now.gap }
        requires root { r < vec_len self.now.rates }
        ensures terms { terms_at N.Scalar.kind.ops (E.OdeEquations.model eqn.now) r boundary.now.t boundary.now.y.now boundary.now.below.now boundary.now.above.now ≡ terms_of result self.exit.now.reset_by_state.items self.exit.now.root_by_state.items self.exit.now.gap.items }
        ensures sizes { (vec_len self.exit.now.gap ≡ vec_len self.entry.now.gap) × (vec_len self.exit.now.rates ≡ vec_len self.entry.now.rates) }
    {
        let states = self.gap.len();
        let p = self.reset_by_state.as_mut_slice();
        let pt = self.reset_by_time.as_mut_slice();
        let q = self.root_by_state.as_mut_slice();
        let qt = self.root_by_time.as_mut_slice();
        boundary.gather(eqn, Op::Reset, Wrt::States, states, p)?;
        boundary.gather(eqn, Op::Reset, Wrt::TimeOnly, 1, pt)?;
        boundary.gather(eqn, Op::Root, Wrt::States, states, q)?;
        boundary.gather(eqn, Op::Root, Wrt::TimeOnly, 1, qt)?;
        let below = boundary.below;
        slope_gap(p, pt, below, boundary.above, self.gap.as_mut_slice());
        let rate = crossing_rate(q, qt, below, r, self.rates.as_mut_slice());
        if is_small(rate) {
            return Err(RuleFault::SmallDenominator);
        }
        Ok(rate)
    }
}
