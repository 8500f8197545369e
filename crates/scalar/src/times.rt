// The times of the two float formats: their finite values, each in a type of its own, so that no other value is taken for
// a time. The formats themselves stand below, where they can make and open such a value.
pub mod binary32;
pub mod binary64;

ghost use Rattle.std.specs.Prelude.{T};
ghost use Rattle.std.specs.Float as Floats;

// Two types, and not one with the format as its parameter: that needs a trait which says what is finite in a format, an impl
// of it for each, and Clone and Copy by hand, and is longer than the second type.
#[derive(Clone, Copy)]
pub struct Finite64 {
    value: f64,
    ghost ok: { T (Floats.float_is_finite value) },
}

#[derive(Clone, Copy)]
pub struct Finite32 {
    value: f32,
    ghost ok: { T (Floats.float_is_finite value) },
}
