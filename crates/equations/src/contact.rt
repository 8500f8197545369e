// A pad in contact with the rider: states z and v, parameters k, c, g and b.
ghost use Rattle.std.specs.Prelude.{◌≡◌};
ghost use Rattle.scalar.specs.Vectors.{at};
ghost use Rattle.equations.specs.Contact.{contact as contact_of, values as values_of, by_state, by_parameter};
ghost use Rattle.equations.specs.Model.{cell};

use crate::entry::entry;
use crate::op::{By, Op};
use crate::{NoFault, OdeEquations};
use scalar::Scalar;

#[derive(Clone, Copy)]
pub struct Contact<N> {
    pub k: N,
    pub c: N,
    pub g: N,
    pub b: N,
}

impl<N: Scalar> Contact<N> {
    // Component i of a function, and zero past its last.
    fn component(&self, op: Op, z: N, v: N, i: usize) -> N
        ensures { result ≡ at N.Scalar.kind.ops (values_of N.Scalar.kind.ops self.now op z v) i }
    {
        match (op, i) {
            (Op::Rhs, 0) => v,
            (Op::Rhs, 1) => -(self.k * z) - self.c * v - self.g,
            (Op::Out | Op::Root | Op::Reset, 0) => z,
            (Op::Reset, 1) => -(self.b * v),
            _ => N::whole(0),
        }
    }

    // The derivative of component i by z (j 0) or v (j 1).
    fn by_state(&self, op: Op, i: usize, j: usize) -> N
        ensures { result ≡ cell N.Scalar.kind.ops (by_state N.Scalar.kind.ops self.now op) i j }
    {
        match (op, i, j) {
            (Op::Rhs, 0, 1) => N::whole(1),
            (Op::Rhs, 1, 0) => -self.k,
            (Op::Rhs, 1, 1) => -self.c,
            (Op::Out | Op::Root | Op::Reset, 0, 0) => N::whole(1),
            (Op::Reset, 1, 1) => -self.b,
            _ => N::whole(0),
        }
    }

    // The derivative of component i by k, c, g or b (j 0 to 3).
    fn by_parameter(&self, op: Op, z: N, v: N, i: usize, j: usize) -> N
        ensures { result ≡ cell N.Scalar.kind.ops (by_parameter N.Scalar.kind.ops self.now op z v) i j }
    {
        match (op, i, j) {
            (Op::Rhs, 1, 0) => -z,
            (Op::Rhs, 1, 1) => -v,
            (Op::Rhs, 1, 2) => -N::whole(1),
            (Op::Reset, 1, 3) => -v,
            _ => N::whole(0),
        }
    }
}

impl<N: Scalar> OdeEquations<N> for Contact<N> {
    type Fault = NoFault;

    ghost model = { λ pad. contact_of N.Scalar.kind.ops pad };

    fn nstates(&self) -> usize {
        2
    }

    fn nparams(&self) -> usize {
        4
    }

    fn nout(&self) -> Option<usize> {
        Some(1)
    }

    fn nroots(&self) -> usize {
        1
    }

    fn has_reset(&self) -> bool {
        true
    }

    fn value(&self, op: Op, _t: N::Time, x: &[N], i: usize) -> Result<N, NoFault> {
        Ok(self.component(op, entry(x, 0), entry(x, 1), i))
    }

    fn derivative(&self, op: Op, by: By, _t: N::Time, x: &[N], i: usize) -> Result<N, NoFault> {
        Ok(match by {
            By::State(j) => self.by_state(op, i, j),
            By::Parameter(j) => self.by_parameter(op, entry(x, 0), entry(x, 1), i, j),
            By::Time => N::whole(0),
        })
    }
}
