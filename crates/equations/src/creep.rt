// Foam that creeps under a load: a state for each cell, with a rate of its own.
ghost use Rattle.std.specs.Prelude.{◌≡◌};
ghost use Rattle.equations.specs.Creep.{creep as creep_of, cells as cells_of, load as load_of, rate as rate_of, values as values_of, derivatives};
ghost use Rattle.equations.specs.declared.op.Op.TheVariants.{Rhs};

use crate::entry::entry;
use crate::op::{By, Op};
use crate::{NoFault, OdeEquations};
use scalar::Scalar;

// The parameters are lent: a rate for each cell, then the load.
#[derive(Clone, Copy)]
pub struct Creep<'a, N> {
    pub parameters: &'a [N],
}

impl<'a, N: Scalar> Creep<'a, N> {
    // A state for each parameter but the load.
    fn cells(&self) -> usize
        ensures { result ≡ cells_of N.Scalar.kind.ops self.now }
    {
        self.parameters.len().saturating_sub(1)
    }

    // The last parameter, and zero where there is none.
    fn load(&self) -> N
        ensures { result ≡ load_of N.Scalar.kind.ops self.now }
    {
        self.parameters
            .last()
            .copied()
            .unwrap_or_else(|| N::whole(0))
    }

    // The rate of cell i; past the cells, zero.
    fn rate(&self, i: usize) -> N
        ensures { result ≡ rate_of N.Scalar.kind.ops self.now i }
    {
        if i < self.cells() {
            entry(self.parameters, i)
        } else {
            N::whole(0)
        }
    }

    // Component i of the right-hand side.
    fn slope(&self, x: &[N], i: usize) -> N
        ensures { result ≡ values_of N.Scalar.kind.ops self.now Rhs x.now i }
    {
        self.rate(i) * (self.load() - entry(x, i))
    }

    // The derivatives of the right-hand side.
    fn slope_by(&self, by: By, x: &[N], i: usize) -> N
        ensures { result ≡ derivatives N.Scalar.kind.ops self.now by x.now i }
    {
        match by {
            By::State(j) if j == i => -self.rate(i),
            By::Parameter(j) if j == self.cells() => self.rate(i),
            By::Parameter(j) if j == i => self.load() - entry(x, i),
            _ => N::whole(0),
        }
    }
}

impl<'a, N: Scalar> OdeEquations<N> for Creep<'a, N> {
    type Fault = NoFault;

    ghost model = { λ foam. creep_of N.Scalar.kind.ops foam };

    fn nstates(&self) -> usize {
        self.cells()
    }

    fn nparams(&self) -> usize {
        self.parameters.len()
    }

    fn nout(&self) -> Option<usize> {
        None
    }

    fn nroots(&self) -> usize {
        0
    }

    fn has_reset(&self) -> bool {
        false
    }

    fn value(&self, op: Op, _t: N::Time, x: &[N], i: usize) -> Result<N, NoFault> {
        Ok(match op {
            Op::Rhs => self.slope(x, i),
            _ => N::whole(0),
        })
    }

    fn derivative(&self, op: Op, by: By, _t: N::Time, x: &[N], i: usize) -> Result<N, NoFault> {
        Ok(match op {
            Op::Rhs => self.slope_by(by, x, i),
            _ => N::whole(0),
        })
    }
}
