// What a touchdown does to all lanes.
ghost use Rattle.std.specs.Prelude.{◌≡◌, ◌<◌, length};
ghost use Rattle.adjoint.specs.Reset.{crossed_by, Derives, reset_at, reset as reset_of};
ghost use Rattle.adjoint.specs.Rules.{Does};
ghost use Rattle.adjoint.specs.Sizes.{Made, vector_length};

use crate::crossing::Alphas;
use crate::faults::RuleFault;
use crate::lanes::{Mode, Product};
use crate::sizes::{all_fit, vector_fits};
use crate::work::Work;
use equations::OdeEquations;
use equations::op::{Op, Wrt};
use refusals::sizes::Size;
use scalar::Scalar;

// The boundary below a segment, crossed from above.
#[derive(Drop)]
pub struct Boundary<'a, N: Scalar> {
    pub segment: usize,
    // the root index of the segment under it
    pub root: Option<usize>,
    // time, state and slope at that segment's last checkpoint
    pub t: N::Time,
    pub y: &'a [N],
    pub below: &'a [N],
    // the slope at the upper segment's first checkpoint
    pub above: &'a [N],
}

// What crossing root r at a rate does to the vector, with the boundary's derivatives in working space.
fn cross<N: Scalar + Drop>(r: usize, rate: N, v: &mut [N], work: &mut Work<N>)
    requires { length v.old ≡ vector_length work.now.sizes }
    ensures rule { v.new ≡ crossed_by N.Scalar.kind.ops r rate work.entry.now v.old }
    ensures space { work.exit.now.sizes ≡ work.entry.now.sizes }
{
    let sizes = work.sizes;
    let n = sizes.channels;
    let (s, sg) = v.split_at_mut(n * sizes.states);
    let old = work.old.as_mut_slice();
    old.copy_from_slice(s);
    let gap = work.crossing.gap.as_slice();
    let alphas = work.alphas.as_mut_slice();
    let lane = Alphas {
        gap,
        rate,
        root: r,
        roots: sizes.roots,
    };
    lane.fill(s, n, alphas);
    let by_old = Product {
        mode: Mode::Lose,
        matrix: work.by_parameter.as_slice(),
        rows: sizes.states,
        vectors: old,
    };
    let by_alpha = Product {
        mode: Mode::Gain,
        matrix: work.root_by_parameter.as_slice(),
        rows: sizes.roots,
        vectors: alphas,
    };
    by_old.meet(n, sg, work.gradient.as_mut_slice());
    by_alpha.meet(n, sg, work.gradient.as_mut_slice());
    let by_alpha = Product {
        mode: Mode::Become,
        matrix: work.crossing.root_by_state.as_slice(),
        ..by_alpha
    };
    let by_old = Product {
        matrix: work.crossing.reset_by_state.as_slice(),
        ..by_old
    };
    by_alpha.meet(n, s, work.state.as_mut_slice());
    by_old.meet(n, s, work.state.as_mut_slice());
}

// Puts the boundary's derivatives into the space, and answers how fast root r is crossed.
fn derive<N: Scalar + Drop, E: OdeEquations<N>>(
    eqn: &E,
    r: usize,
    boundary: &Boundary<N>,
    work: &mut Work<N>,
) -> Result<N, RuleFault<E::Fault>>
    requires space { Made (E.OdeEquations.model eqn.now) work.now.sizes }
    requires slope { length boundary.now.below.now ≡ work.now.sizes.states }
    requires root { r < work.now.sizes.roots }
    ensures terms { Derives N.Scalar.kind.ops (E.OdeEquations.model eqn.now) r boundary.now result work.exit.now }
    ensures space { work.exit.now.sizes ≡ work.entry.now.sizes }
{
    let columns = work.sizes.parameters;
    let rate = work.crossing.fill(eqn, r, boundary)?;
    let pp = work.by_parameter.as_mut_slice();
    boundary.gather(eqn, Op::Reset, Wrt::Parameters, columns, pp)?;
    let qp = work.root_by_parameter.as_mut_slice();
    boundary.gather(eqn, Op::Root, Wrt::Parameters, columns, qp)?;
    Ok(rate)
}

// Over root r, with space that is made for the model.
fn reset_lanes<N: Scalar + Drop, E: OdeEquations<N>>(
    eqn: &E,
    r: usize,
    boundary: &Boundary<N>,
    v: &mut [N],
    work: &mut Work<N>,
) -> Result<(), RuleFault<E::Fault>>
    requires space { Made (E.OdeEquations.model eqn.now) work.now.sizes }
    requires slope { length boundary.now.below.now ≡ work.now.sizes.states }
    requires root { r < work.now.sizes.roots }
    requires both { length v.old ≡ vector_length work.now.sizes }
    ensures rule { Does (reset_at N.Scalar.kind.ops (E.OdeEquations.model eqn.now) work.entry.now.sizes.channels r boundary.now.t boundary.now.y.now boundary.now.below.now boundary.now.above.now v.old) result v.old v.new }
    ensures space { work.exit.now.sizes ≡ work.entry.now.sizes }
{
    let rate = derive(eqn, r, boundary, work)?;
    cross(r, rate, v, work);
    Ok(())
}

// On every lane s becomes the root product of α less the reset product of s, and sg loses the reset's parameter product
// and gains the root's.
pub fn apply_reset_with_adjoint<N: Scalar + Drop, E: OdeEquations<N>>(
    eqn: &E,
    boundary: &Boundary<N>,
    channels: usize,
    v: &mut [N],
    work: &mut Work<N>,
) -> Result<(), RuleFault<E::Fault>>
    ensures rule { Does (reset_of N.Scalar.kind.ops (E.OdeEquations.model eqn.now) channels work.entry.now.sizes boundary.now.segment boundary.now.root boundary.now.t boundary.now.y.now boundary.now.below.now boundary.now.above.now v.old) result v.old v.new }
    ensures space { work.exit.now.sizes ≡ work.entry.now.sizes }
{
    let states = eqn.nstates();
    let lengths = [
        (boundary.y.len() == states, Size::CheckpointState),
        (boundary.below.len() == states, Size::CheckpointSlope),
        (boundary.above.len() == states, Size::CheckpointSlope),
        vector_fits(eqn, states, channels, v),
        work.sizes.space_fits(eqn, channels),
    ];
    all_fit(eqn, channels, &lengths)?;
    let r = boundary.root_of(eqn)?;
    reset_lanes(eqn, r, boundary, v, work)
}
