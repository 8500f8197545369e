// The sizes that a rule works with, within their limits.
ghost use Rattle.std.specs.Prelude.{◌≡◌, ◌+◌, ◌*◌, ◌++◌, ◌==◌};
ghost use Rattle.refusals.specs.Sizes.{first_wrong};
ghost use Rattle.adjoint.specs.Sizes.{Sized, within as is_within, rows_of, limits};
ghost use Rattle.adjoint.specs.Rules.{sized, vector_fits, space_fits};

use crate::faults::RuleFault;
use crate::measures::Sizes;
use equations::OdeEquations;
use refusals::sizes::{Size, WrongSize, first_wrong};
use scalar::Scalar;

// A model without an output function has its states as outputs.
pub(crate) fn outputs<N: Scalar, E: OdeEquations<N>>(eqn: &E) -> usize
    ensures { result ≡ rows_of (E.OdeEquations.model eqn.now) }
{
    eqn.nout().unwrap_or_else(|| eqn.nstates())
}

fn within(low: usize, n: usize, high: usize) -> bool
    ensures { result ≡ is_within low n high }
{
    low <= n && n <= high
}

// Whether there are so many entries, in n parts of one width and n of another.
fn is_both(entries: usize, n: usize, width: usize, other: usize) -> bool
    ensures { result ≡ (entries == n * width + n * other) }
{
    n.checked_mul(width)
        .zip(n.checked_mul(other))
        .and_then(|(a, b)| a.checked_add(b))
        == Some(entries)
}

// Whether a vector holds all s and all sg. Model and channels go side by side here, as they are handed to the rules: a struct
// of the two would be made anew in each. A rule that has asked for the states already hands them on: a model may count them.
pub(crate) fn vector_fits<N: Scalar, E: OdeEquations<N>>(
    eqn: &E,
    states: usize,
    channels: usize,
    v: &[N],
) -> (bool, Size)
    requires { states ≡ (E.OdeEquations.model eqn.now).states }
    ensures { result ≡ vector_fits N.Scalar.kind.ops (E.OdeEquations.model eqn.now) channels v.now }
{
    let fits = is_both(v.len(), channels, states, eqn.nparams());
    (fits, Size::Vector)
}

// The sizes within their limits, then the lengths.
fn first_unfit<N: Scalar, E: OdeEquations<N>>(
    eqn: &E,
    channels: usize,
    lengths: &[(bool, Size)],
) -> Result<(), WrongSize>
    ensures { result ≡ first_wrong (limits (E.OdeEquations.model eqn.now) channels ++ lengths.now) }
{
    let _ = Sizes::of(eqn, channels)?;
    first_wrong(lengths)
}

// The same, with a wrong size as a rule's refusal.
pub(crate) fn all_fit<N: Scalar, E: OdeEquations<N>>(
    eqn: &E,
    channels: usize,
    lengths: &[(bool, Size)],
) -> Result<(), RuleFault<E::Fault>>
    ensures { result ≡ sized (first_wrong (limits (E.OdeEquations.model eqn.now) channels ++ lengths.now)) (Ok tt) }
{
    first_unfit(eqn, channels, lengths).map_err(|w| RuleFault::Size(w))
}

impl Sizes {
    // The sizes of a model with so many channels; the first that is outside its limits is refused.
    pub fn of<N: Scalar, E: OdeEquations<N>>(eqn: &E, channels: usize) -> Result<Sizes, WrongSize>
        ensures { Sized (E.OdeEquations.model eqn.now) channels result }
    {
        let states = eqn.nstates();
        let parameters = eqn.nparams();
        let outputs = outputs(eqn);
        let roots = eqn.nroots();
        first_wrong(&[
            (within(1, channels, 8), Size::Channels),
            (within(1, states, 16), Size::States),
            (within(0, parameters, 16), Size::Parameters),
            (within(1, outputs, 16), Size::Outputs),
            (within(0, roots, 8), Size::Roots),
        ])?;
        Ok(Sizes {
            channels,
            states,
            parameters,
            outputs,
            roots,
        })
    }

    // Whether space of these sizes is made for the model with so many channels. Not by `==`: a model beyond the limits has
    // no `Sizes`.
    pub(crate) fn space_fits<N: Scalar, E: OdeEquations<N>>(
        &self,
        eqn: &E,
        channels: usize,
    ) -> (bool, Size)
        ensures { result ≡ space_fits N.Scalar.kind.ops (E.OdeEquations.model eqn.now) channels self.now }
    {
        let fits = self.channels == channels
            && self.states == eqn.nstates()
            && self.parameters == eqn.nparams()
            && self.outputs == outputs(eqn)
            && self.roots == eqn.nroots();
        (fits, Size::WorkingSpace)
    }
}
