// The forward state from checkpoints: interpolation between knots.
#![tactic(auto)]

pub mod hermite;
pub mod interpolator;
mod list;
pub mod segments;
