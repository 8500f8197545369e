// f32 as a number kind. This is the impl for f64 with other names: one impl for both would need a trait of the two formats
// that has each of these members once more.
ghost use Rattle.scalar.specs.Floats.{kind32};
ghost use Rattle.std.specs.Prelude.{refl};
ghost use Rattle.scalar.specs.FloatTimes.{float_lawful};

use crate::Scalar;
use crate::times::Finite32;
use std::num::nearest_u64_to_f32;

impl Scalar for f32 {
    type Time = Finite32;

    ghost kind = { kind32 };

    ghost lawful = { float_lawful (λ v o. record { value = v; ok = o }) (λ t. t.value) (λ t. t.ok) (λ t. refl) (λ v o. refl) _ _ _ };

    ghost may_add = { λ x y. tt };

    ghost may_sub = { λ x y. tt };

    ghost may_mul = { λ x y. tt };

    ghost may_div = { λ x y. tt };

    ghost may_neg = { λ x. tt };

    ghost adds = { λ x y r e. e };

    ghost subs = { λ x y r e. e };

    ghost muls = { λ x y r e. e };

    ghost divs = { λ x y r e. e };

    ghost negs = { λ x r e. e };

    fn abs(self) -> f32 {
        f32::abs(self)
    }

    fn before(self, other: f32) -> bool {
        self < other
    }

    fn equals(self, other: f32) -> bool {
        self == other
    }

    fn at_most(self, other: f32) -> bool {
        self <= other
    }

    fn whole(n: u64) -> f32 {
        nearest_u64_to_f32(n)
    }

    fn eps() -> f32 {
        f32::EPSILON
    }

    fn root_eps() -> f32 {
        3.4526698e-4
    }

    fn time(self) -> Option<Finite32> {
        if self.is_finite() {
            Some(Finite32 { value: self })
        } else {
            None
        }
    }

    fn value(t: Finite32) -> f32 {
        t.value
    }
}
