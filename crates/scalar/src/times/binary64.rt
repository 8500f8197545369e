// f64 as a number kind.
ghost use Rattle.scalar.specs.Floats.{kind64};
ghost use Rattle.std.specs.Prelude.{refl};
ghost use Rattle.scalar.specs.FloatTimes.{float_lawful};

use crate::Scalar;
use crate::times::Finite64;
use std::num::nearest_u64_to_f64;

impl Scalar for f64 {
    type Time = Finite64;

    ghost kind = { kind64 };

    ghost lawful = { float_lawful (λ v o. record { value = v; ok = o }) (λ t. t.value) (λ t. t.ok) (λ t. refl) (λ v o. refl) _ _ _ };

    ghost may_add = { λ x y. tt };

    ghost may_sub = { λ x y. tt };

    ghost may_mul = { λ x y. tt };

    ghost may_div = { λ x y. tt };

    ghost may_neg = { λ x. tt };

    ghost adds = { λ x y r e. e };

    ghost subs = { λ x y r e. e };

    ghost muls = { λ x y r e. e };

    ghost divs = { λ x y r e. e };

    ghost negs = { λ x r e. e };

    fn abs(self) -> f64 {
        f64::abs(self)
    }

    fn before(self, other: f64) -> bool {
        self < other
    }

    fn equals(self, other: f64) -> bool {
        self == other
    }

    fn at_most(self, other: f64) -> bool {
        self <= other
    }

    fn whole(n: u64) -> f64 {
        nearest_u64_to_f64(n)
    }

    fn eps() -> f64 {
        f64::EPSILON
    }

    fn root_eps() -> f64 {
        1.4901161193847656e-8
    }

    fn time(self) -> Option<Finite64> {
        if self.is_finite() {
            Some(Finite64 { value: self })
        } else {
            None
        }
    }

    fn value(t: Finite64) -> f64 {
        t.value
    }
}
