// Working space of the rules, made once for the sizes that it serves. What it holds between calls means nothing.
ghost use Rattle.std.specs.Prelude.{◌≡◌, ◌*◌, ◌≤◌, IfOk, vec_len};

use crate::measures::Sizes;
use scalar::Scalar;
use std::alloc::{AllocError, Global};

// For what a boundary gives to every lane.
#[derive(Drop)]
pub(crate) struct Crossing<N: Drop> {
    pub(crate) reset_by_state: Vec<N>,
    pub(crate) reset_by_time: Vec<N>,
    pub(crate) root_by_state: Vec<N>,
    pub(crate) root_by_time: Vec<N>,
    // what the slope below a boundary lacks to the one above
    pub(crate) gap: Vec<N>,
    // the roots' derivatives along the slope
    pub(crate) rates: Vec<N>,
    ghost by_state: { (vec_len reset_by_state ≡ vec_len gap * vec_len gap) × (vec_len root_by_state ≡ vec_len rates * vec_len gap) },
    ghost by_time: { (vec_len reset_by_time ≡ vec_len gap) × (vec_len root_by_time ≡ vec_len rates) },
}

#[derive(Drop)]
pub struct Work<N: Drop> {
    pub(crate) sizes: Sizes,
    // matrices of derivatives
    pub(crate) out_by_state: Vec<N>,
    pub(crate) out_by_parameter: Vec<N>,
    pub(crate) root_by_parameter: Vec<N>,
    // of the reset, or of the initial state
    pub(crate) by_parameter: Vec<N>,
    pub(crate) crossing: Crossing<N>,
    // all s as they were
    pub(crate) old: Vec<N>,
    // for each lane, a number per root
    pub(crate) alphas: Vec<N>,
    // one lane's product
    pub(crate) state: Vec<N>,
    pub(crate) gradient: Vec<N>,
    ghost outs: { (vec_len out_by_state ≡ sizes.outputs * sizes.states) × (vec_len out_by_parameter ≡ sizes.outputs * sizes.parameters) },
    ghost by_parameters: { (vec_len by_parameter ≡ sizes.states * sizes.parameters) × (vec_len root_by_parameter ≡ sizes.roots * sizes.parameters) },
    ghost crossings: { (vec_len crossing.gap ≡ sizes.states) × (vec_len crossing.rates ≡ sizes.roots) },
    ghost lanes: { (vec_len old ≡ sizes.channels * sizes.states) × (vec_len alphas ≡ sizes.channels * sizes.roots) },
    ghost products: { (vec_len state ≡ sizes.states) × (vec_len gradient ≡ sizes.parameters) },
}

fn zeros<N: Scalar + Drop>(heap: Global, n: usize) -> Result<Vec<N>, AllocError>
    ensures { IfOk result (λ v. vec_len v ≡ n) }
{
    // not by `vec!`, which clones: a kind's own clone may fail where there is memory
    (0..n).map(|_| N::whole(0)).collect(heap)
}

// Zeros for a matrix.
fn matrix<N: Scalar + Drop>(heap: Global, rows: usize, columns: usize) -> Result<Vec<N>, AllocError>
    requires { (rows ≤ 16) × (columns ≤ 16) }
    ensures { IfOk result (λ v. vec_len v ≡ rows * columns) }
{
    zeros(heap, rows * columns)
}

impl<N: Scalar + Drop> Crossing<N> {
    fn new(heap: Global, states: usize, roots: usize) -> Result<Crossing<N>, AllocError>
        requires { (states ≤ 16) × (roots ≤ 16) }
        ensures { IfOk result (λ w. (vec_len w.gap ≡ states) × (vec_len w.rates ≡ roots)) }
    {
        Ok(Crossing {
            reset_by_state: matrix(heap, states, states)?,
            reset_by_time: zeros(heap, states)?,
            root_by_state: matrix(heap, roots, states)?,
            root_by_time: zeros(heap, roots)?,
            gap: zeros(heap, states)?,
            rates: zeros(heap, roots)?,
        })
    }
}

impl<N: Scalar + Drop> Work<N> {
    pub fn new(heap: Global, sizes: Sizes) -> Result<Work<N>, AllocError>
        ensures { IfOk result (λ w. w.sizes ≡ sizes) }
    {
        let ns = sizes.states;
        let np = sizes.parameters;
        let no = sizes.outputs;
        let nr = sizes.roots;
        let n = sizes.channels;
        Ok(Work {
            sizes,
            out_by_state: matrix(heap, no, ns)?,
            out_by_parameter: matrix(heap, no, np)?,
            root_by_parameter: matrix(heap, nr, np)?,
            by_parameter: matrix(heap, ns, np)?,
            crossing: Crossing::new(heap, ns, nr)?,
            old: matrix(heap, n, ns)?,
            alphas: matrix(heap, n, nr)?,
            state: zeros(heap, ns)?,
            gradient: zeros(heap, np)?,
        })
    }
}
