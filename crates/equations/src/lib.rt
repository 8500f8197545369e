// The equations that are differentiated.
#![tactic(auto)]

pub mod contact;
pub mod creep;
mod entry;
pub mod gather;
pub mod layers;
pub mod op;

ghost use Rattle.std.specs.Prelude.{◌≡◌};
ghost use Rattle.equations.specs.Model.{Model};

use op::{By, Op};
use scalar::Scalar;
use std::convert::Infallible;

// A model: it answers by its arguments alone and stays as it was. What it answers is its meaning, `model`; an answer
// may be a refusal of its own type.
pub trait OdeEquations<N: Scalar> {
    type Fault;

    ghost model: { Self → Model N N.Time Self.Fault };

    fn nstates(&self) -> usize
        ensures { result ≡ (model self.now).states };

    fn nparams(&self) -> usize
        ensures { result ≡ (model self.now).parameters };

    // None where the model has no output function: its states are its outputs then.
    fn nout(&self) -> Option<usize>
        ensures { result ≡ (model self.now).outputs };

    // 0 where the model has no root function.
    fn nroots(&self) -> usize
        ensures { result ≡ (model self.now).roots };

    fn has_reset(&self) -> bool
        ensures { result ≡ (model self.now).resets };

    // Component i of a function at the time t and the state x.
    fn value(&self, op: Op, t: N::Time, x: &[N], i: usize) -> Result<N, Self::Fault>
        ensures { result ≡ (model self.now).value op t x.now i };

    // The derivative of component i.
    fn derivative(&self, op: Op, by: By, t: N::Time, x: &[N], i: usize) -> Result<N, Self::Fault>
        ensures { result ≡ (model self.now).derivative op by t x.now i };
}

// The models here refuse nothing.
pub type NoFault = Infallible;
