// The sizes that all rules work with.
ghost use Rattle.std.specs.Prelude.{◌≤◌};

// How many channels, states, parameters, outputs and roots there are, each within its limit.
#[derive(Clone, Copy)]
pub struct Sizes {
    pub(crate) channels: usize,
    pub(crate) states: usize,
    pub(crate) parameters: usize,
    pub(crate) outputs: usize,
    pub(crate) roots: usize,
    ghost few: { (channels ≤ 8) × (states ≤ 16) × (parameters ≤ 16) × (outputs ≤ 16) × (roots ≤ 8) },
}
