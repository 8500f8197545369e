// What the pass does to adjoint states and gradients at an instant, at a touchdown and at the start.
#![tactic(auto)]

pub mod correct;
mod crossing;
pub mod faults;
pub mod jump;
mod lanes;
pub mod measures;
pub mod reset;
mod sizes;
pub mod work;
