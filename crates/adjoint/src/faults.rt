// What a rule refuses.
ghost use Rattle.std.specs.Prelude.{◌≡◌, [], ◌∷◌};
ghost use Rattle.adjoint.specs.Faults.{rule_told, listed};
ghost use Rattle.adjoint.specs.declared.faults.RuleFault.TheVariants.{Model};

use refusals::Refusal;
use refusals::sizes::WrongSize;

// F is the model's own fault, which a rule passes on.
#[derive(Clone, Copy, Debug)]
pub enum RuleFault<F> {
    Size(WrongSize),
    // at the boundary below this segment
    NoRootIndex(usize),
    NoReset(usize),
    NoRoot(usize),
    // the root index that is not below the roots
    RootIndex(usize),
    SmallDenominator,
    Model(F),
}

impl<F> From<F> for RuleFault<F> {
    ghost from_gives = { λ x y. y ≡ Model x };

    fn from(value: F) -> RuleFault<F> {
        RuleFault::Model(value)
    }
}

impl<T, F: Refusal<T>> Refusal<T> for RuleFault<F> {
    ghost told = { rule_told F.Refusal.told };

    ghost numbers = { 1 ∷ 9 ∷ 10 ∷ 11 ∷ 12 ∷ 13 ∷ F.Refusal.numbers };

    ghost listed = { listed F.Refusal.told F.Refusal.numbers F.Refusal.listed };

    fn number(fault: Option<&Self>) -> Option<u8> {
        Some(match fault? {
            RuleFault::Size(_) => 1,
            RuleFault::NoRootIndex(_) => 9,
            RuleFault::NoReset(_) => 10,
            RuleFault::NoRoot(_) => 11,
            RuleFault::RootIndex(_) => 12,
            RuleFault::SmallDenominator => 13,
            RuleFault::Model(e) => return F::number(Some(e)),
        })
    }
}
