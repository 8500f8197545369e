// The correction of the gradients at the model's start.
ghost use Rattle.std.specs.Prelude.{◌≡◌, ◌+◌, ◌*◌, length};
ghost use Rattle.adjoint.specs.Rules.{Does, corrected, correction};
ghost use Rattle.adjoint.specs.Sizes.{Made, vector_length};

use crate::faults::RuleFault;
use crate::lanes::{Mode, Product};
use crate::sizes::{all_fit, vector_fits};
use crate::work::Work;
use equations::OdeEquations;
use equations::gather::gather;
use equations::op::{Op, Wrt};
use scalar::Scalar;

// With space that is made for the model.
fn correct_lanes<N: Scalar + Drop, E: OdeEquations<N>>(
    eqn: &E,
    start: N::Time,
    v: &mut [N],
    work: &mut Work<N>,
) -> Result<(), E::Fault>
    requires space { Made (E.OdeEquations.model eqn.now) work.now.sizes }
    requires both { length v.old ≡ vector_length work.now.sizes }
    ensures rule { Does (corrected N.Scalar.kind.ops (E.OdeEquations.model eqn.now) work.entry.now.sizes.channels start v.old) result v.old v.new }
    ensures space { work.exit.now.sizes ≡ work.entry.now.sizes }
{
    let sizes = work.sizes;
    let matrix = work.by_parameter.as_mut_slice();
    gather(
        eqn,
        Op::Init,
        Wrt::Parameters,
        sizes.parameters,
        start,
        &[],
        matrix,
    )?;
    let (s, sg) = v.split_at_mut(sizes.channels * sizes.states);
    let product = Product {
        mode: Mode::Lose,
        matrix,
        // the model's own number, which is often known where the rule is called: the loop is then made for it
        rows: eqn.nstates(),
        vectors: s,
    };
    product.meet(sizes.channels, sg, work.gradient.as_mut_slice());
    Ok(())
}

// sg less the initial state's parameter product of s, on every lane.
pub fn correct_sg_for_init<N: Scalar + Drop, E: OdeEquations<N>>(
    eqn: &E,
    start: N::Time,
    channels: usize,
    v: &mut [N],
    work: &mut Work<N>,
) -> Result<(), RuleFault<E::Fault>>
    ensures rule { Does (correction N.Scalar.kind.ops (E.OdeEquations.model eqn.now) channels work.entry.now.sizes start v.old) result v.old v.new }
    ensures space { work.exit.now.sizes ≡ work.entry.now.sizes }
{
    let lengths = [
        vector_fits(eqn, eqn.nstates(), channels, v),
        work.sizes.space_fits(eqn, channels),
    ];
    all_fit(eqn, channels, &lengths)?;
    correct_lanes(eqn, start, v, work)?;
    Ok(())
}
