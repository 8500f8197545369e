// Refusal 2: a number that should be a time is none.
ghost use Rattle.std.specs.Prelude.{[], ◌∷◌, refl};
ghost use Rattle.std.proofs.Common.{inl};
ghost use Rattle.refusals.specs.Told.{time_told};

use crate::Refusal;

// Where the number stands.
#[derive(Clone, Copy, Debug)]
pub enum Times {
    Instants,
    // counted through the ride
    Checkpoints,
    Start,
    Stop,
    // the time that a stepper is made with
    Made,
    // the time that is loaded into a stepper
    Loaded,
}

#[derive(Clone, Copy, Debug)]
pub struct NoTime {
    pub list: Times,
    pub index: usize,
}

impl<T> Refusal<T> for NoTime {
    ghost told = { time_told };

    ghost numbers = { 2 ∷ [] };

    ghost listed = { λ e. inl refl };

    fn number(fault: Option<&Self>) -> Option<u8> {
        fault.map(|_| 2)
    }
}
