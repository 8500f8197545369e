// Number kinds, and sums and products over them. A routine that is written once, for every kind, needs of its numbers
// what `Scalar` offers, and nothing above this crate knows which kind it works on.
#![tactic(auto)]

pub mod matrix;
pub mod nan;
pub mod order;
pub mod times;
pub mod vectors;
pub mod whole;

ghost use Rattle.std.specs.Prelude.{◌≡◌};
ghost use Rattle.scalar.specs.Kind.{Kind, Lawful};

use std::ops::{Add, Div, Mul, Neg, Sub};

// A number kind. Each operation is a function of its operands alone, the one that `kind` names, so that bits are fixed
// by the order in which operations are written. The operators are offered by laws: each may always be used, and gives
// what `kind` says.
pub trait Scalar: Copy
    + Add<Self, Output = Self>
    + Sub<Self, Output = Self>
    + Mul<Self, Output = Self>
    + Div<Self, Output = Self>
    + Neg<Output = Self> {
    // The values that are times have a type of their own.
    type Time: Copy;

    ghost kind: { Kind Self Self.Time };

    fn abs(self) -> Self
        ensures { result ≡ kind.ops.abs self };

    // The three tests are the kind's own and not those of PartialOrd, whose laws make "at most" mean "before or equal": in a
    // kind of ranges that need not hold, and all three tests may fail.
    fn before(self, other: Self) -> bool
        ensures { result ≡ kind.ops.before self other };

    fn equals(self, other: Self) -> bool
        ensures { result ≡ kind.ops.equal self other };

    fn at_most(self, other: Self) -> bool
        ensures { result ≡ kind.ops.at_most self other };

    // The value nearest to n, so it loses digits, as no `From` may.
    fn whole(n: u64) -> Self
        ensures { result ≡ kind.ops.whole n };

    fn eps() -> Self
        ensures { result ≡ kind.ops.eps };

    fn root_eps() -> Self
        ensures { result ≡ kind.ops.root_eps };

    // These two are not TryFrom and From: each is one clause here; as impls they need an error type, two laws of this trait
    // and two impls for each format.
    fn time(self) -> Option<Self::Time>
        ensures { result ≡ kind.time self };

    fn value(t: Self::Time) -> Self
        ensures { result ≡ kind.value t };

    ghost lawful: { Lawful kind };

    ghost may_add: { (x y : Self) → Self.Add.can_add x y };

    ghost may_sub: { (x y : Self) → Self.Sub.can_sub x y };

    ghost may_mul: { (x y : Self) → Self.Mul.can_mul x y };

    ghost may_div: { (x y : Self) → Self.Div.can_div x y };

    ghost may_neg: { (x : Self) → Self.Neg.can_neg x };

    ghost adds: { (x y r : Self) → Self.Add.add_gives x y r → r ≡ kind.ops.plus x y };

    ghost subs: { (x y r : Self) → Self.Sub.sub_gives x y r → r ≡ kind.ops.minus x y };

    ghost muls: { (x y r : Self) → Self.Mul.mul_gives x y r → r ≡ kind.ops.times x y };

    ghost divs: { (x y r : Self) → Self.Div.div_gives x y r → r ≡ kind.ops.over x y };

    ghost negs: { (x r : Self) → Self.Neg.neg_gives x r → r ≡ kind.ops.negated x };
}
