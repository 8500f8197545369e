// What a refusal tells: its number in the table of refusals, and values. Each layer has an enum of its own for what it
// refuses, and that enum says here, once, which number and values belong to each of its cases.
#![tactic(auto)]

pub mod sizes;
pub mod times;

ghost use Rattle.std.specs.Prelude.{◌≡◌, ℕ, List, [], option_map};
ghost use Rattle.refusals.specs.Told.{Told, Among};

use std::convert::Infallible;

// A layer's faults, over the type of times. `numbers` are those that it can tell, and no case has another.
pub trait Refusal<T> {
    ghost told: { Self → Told T };

    ghost numbers: { List ℕ };

    // The number of a fault, if there is one: a type of faults may have no values, and then no fault is ever given. The
    // table of refusals is one of plain numbers, which programs print; in code a refusal is a case of an enum.
    fn number(fault: Option<&Self>) -> Option<u8>
        ensures { result ≡ option_map (λ e. (told e.now).number) fault.entry };

    ghost listed: { (e : Self) → Among numbers (told e).number };
}

// What refuses nothing tells nothing.
impl<T> Refusal<T> for Infallible {
    ghost told = { λ e. elim e [ ] };

    ghost numbers = { [] };

    ghost listed = { λ e. elim e [ ] };

    fn number(_fault: Option<&Self>) -> Option<u8> {
        None
    }
}
