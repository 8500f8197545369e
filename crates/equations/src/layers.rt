// Layers over any model, each a model again. What a layer leaves as it is, it hands on method by method: Rust has no
// shorter form.
ghost use Rattle.std.specs.Prelude.{◌≡◌};
ghost use Rattle.equations.specs.Layers.{weighted, zeroed, if_any};

use crate::OdeEquations;
use crate::op::{By, Op};
use scalar::Scalar;

// The outputs of a model, if any, times a weight.
#[derive(Drop)]
pub struct Weighted<N, E> {
    pub weight: N,
    pub eqn: E,
}

// A model with its first parameter columns zero: these parameters are not fitted.
#[derive(Drop)]
pub struct Zeroed<E> {
    pub columns: usize,
    pub eqn: E,
}

// An answer about the outputs times w, where there are outputs; every other as it is.
fn weigh_outputs<N: Scalar, F>(
    outputs: Option<usize>,
    op: Op,
    answer: Result<N, F>,
    w: N,
) -> Result<N, F>
    ensures { result ≡ if_any N.Scalar.kind.ops outputs w op answer }
{
    match (outputs, op) {
        (Some(_), Op::Out) => answer.map(|x| x * w),
        _ => answer,
    }
}

impl<N: Scalar, E: OdeEquations<N>> OdeEquations<N> for Weighted<N, E> {
    type Fault = E::Fault;

    ghost model = { λ m. weighted N.Scalar.kind.ops m.weight (E.OdeEquations.model m.eqn) };

    fn nstates(&self) -> usize {
        self.eqn.nstates()
    }

    fn nparams(&self) -> usize {
        self.eqn.nparams()
    }

    fn nout(&self) -> Option<usize> {
        self.eqn.nout()
    }

    fn nroots(&self) -> usize {
        self.eqn.nroots()
    }

    fn has_reset(&self) -> bool {
        self.eqn.has_reset()
    }

    fn value(&self, op: Op, t: N::Time, x: &[N], i: usize) -> Result<N, E::Fault> {
        let value = self.eqn.value(op, t, x, i);
        weigh_outputs(self.eqn.nout(), op, value, self.weight)
    }

    fn derivative(&self, op: Op, by: By, t: N::Time, x: &[N], i: usize) -> Result<N, E::Fault> {
        let derivative = self.eqn.derivative(op, by, t, x, i);
        weigh_outputs(self.eqn.nout(), op, derivative, self.weight)
    }
}

impl<N: Scalar, E: OdeEquations<N>> OdeEquations<N> for Zeroed<E> {
    type Fault = E::Fault;

    ghost model = { λ m. zeroed N.Scalar.kind.ops m.columns (E.OdeEquations.model m.eqn) };

    fn nstates(&self) -> usize {
        self.eqn.nstates()
    }

    fn nparams(&self) -> usize {
        self.eqn.nparams()
    }

    fn nout(&self) -> Option<usize> {
        self.eqn.nout()
    }

    fn nroots(&self) -> usize {
        self.eqn.nroots()
    }

    fn has_reset(&self) -> bool {
        self.eqn.has_reset()
    }

    fn value(&self, op: Op, t: N::Time, x: &[N], i: usize) -> Result<N, E::Fault> {
        self.eqn.value(op, t, x, i)
    }

    fn derivative(&self, op: Op, by: By, t: N::Time, x: &[N], i: usize) -> Result<N, E::Fault> {
        match by {
            By::Parameter(j) if j < self.columns => Ok(N::whole(0)),
            _ => self.eqn.derivative(op, by, t, x, i),
        }
    }
}
