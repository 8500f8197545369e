// What an instant does to all lanes.
ghost use Rattle.std.specs.Prelude.{◌≡◌, ◌+◌, ◌*◌, ◌≤◌, ◌++◌, length, take, drop, Some};
ghost use Rattle.scalar.specs.Vectors.{placewise};
ghost use Rattle.adjoint.specs.Rules.{Does, jumped_by, jump as jump_of};
ghost use Rattle.adjoint.specs.Sizes.{Made, vector_length};

use crate::faults::RuleFault;
use crate::lanes::{Mode, Product};
use crate::sizes::{all_fit, outputs, vector_fits};
use crate::work::Work;
use equations::OdeEquations;
use equations::gather::gather;
use equations::op::{Op, Wrt};
use refusals::sizes::Size;
use scalar::Scalar;
use scalar::matrix::fills;
use scalar::vectors::add_assign;

// An instant, with the forward state there and the columns of all lanes.
#[derive(Drop)]
pub struct Instant<'a, N: Scalar> {
    pub t: N::Time,
    pub x: &'a [N],
    pub columns: &'a [N],
}

// With an output function of so many rows, and space that is made for the model. The space has their number too; the model's
// own is often known where the rule is called, and the loops are then made for it.
fn jump_out<N: Scalar + Drop, E: OdeEquations<N>>(
    eqn: &E,
    rows: usize,
    instant: &Instant<N>,
    v: &mut [N],
    work: &mut Work<N>,
) -> Result<(), E::Fault>
    requires space { Made (E.OdeEquations.model eqn.now) work.now.sizes }
    requires rows { rows ≡ work.now.sizes.outputs }
    requires columns { length instant.now.columns.now ≡ work.now.sizes.channels * work.now.sizes.outputs }
    requires both { length v.old ≡ vector_length work.now.sizes }
    ensures rule { Does (jumped_by N.Scalar.kind.ops (E.OdeEquations.model eqn.now) work.entry.now.sizes.channels (Some work.entry.now.sizes.outputs) instant.now.t instant.now.x.now instant.now.columns.now v.old) result v.old v.new }
    ensures space { work.exit.now.sizes ≡ work.entry.now.sizes }
{
    let sizes = work.sizes;
    let Instant { t, x, columns } = *instant;
    let p = work.out_by_parameter.as_mut_slice();
    gather(eqn, Op::Out, Wrt::Parameters, sizes.parameters, t, x, p)?;
    let q = work.out_by_state.as_mut_slice();
    gather(eqn, Op::Out, Wrt::States, sizes.states, t, x, q)?;
    let lost = Product {
        mode: Mode::Lose,
        matrix: p,
        rows,
        vectors: columns,
    };
    let (s, sg) = v.split_at_mut(sizes.channels * sizes.states);
    lost.meet(sizes.channels, sg, work.gradient.as_mut_slice());
    let lost = Product { matrix: q, ..lost };
    lost.meet(sizes.channels, s, work.state.as_mut_slice());
    Ok(())
}

// Without one the states are the outputs: all s, which come first, gain their columns.
fn apply_delta_g_no_out<N: Scalar>(dg: &[N], v: &mut [N])
    requires { length dg.now ≤ length v.old }
    ensures { v.new ≡ placewise N.Scalar.kind.ops.plus (take (length dg.now) v.old) dg.now ++ drop (length dg.now) v.old }
{
    let mid = dg.len();
    add_assign(&mut v[0..mid], dg);
}

// With an output function sg loses the outputs' parameter product of the columns, then s their state product of them;
// without, s gains the columns.
pub fn apply_delta_g<N: Scalar + Drop, E: OdeEquations<N>>(
    eqn: &E,
    instant: &Instant<N>,
    channels: usize,
    v: &mut [N],
    work: &mut Work<N>,
) -> Result<(), RuleFault<E::Fault>>
    ensures rule { Does (jump_of N.Scalar.kind.ops (E.OdeEquations.model eqn.now) channels work.entry.now.sizes instant.now.t instant.now.x.now instant.now.columns.now v.old) result v.old v.new }
    ensures space { work.exit.now.sizes ≡ work.entry.now.sizes }
{
    let states = eqn.nstates();
    let rows = outputs(eqn);
    let lengths = [
        (fills(instant.columns, channels, rows), Size::Columns),
        vector_fits(eqn, states, channels, v),
        (instant.x.len() == states, Size::ForwardState),
        work.sizes.space_fits(eqn, channels),
    ];
    all_fit(eqn, channels, &lengths)?;
    match eqn.nout() {
        Some(rows) => jump_out(eqn, rows, instant, v, work)?,
        None => apply_delta_g_no_out(instant.columns, v),
    }
    Ok(())
}
