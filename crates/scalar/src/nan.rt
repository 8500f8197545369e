// The bit pattern that is written where a NaN is to be shown.
ghost use Rattle.std.specs.Prelude.{◌≡◌};
ghost use Rattle.std.specs.Float.Ieee as Ieee;
ghost use Rattle.std.specs.Float.{binary32, binary64, nan};
ghost use Rattle.scalar.specs.Nan.{OneNan};

// For f64 and f32: the quiet NaN with a clear sign, which stands for every NaN.
pub fn nan_bits() -> (u64, u32)
    ensures bits { result ≡ (Ieee.to_bits binary64 nan, Ieee.to_bits binary32 nan) }
    ensures one { OneNan binary64 × OneNan binary32 }
{
    (0x7ff8_0000_0000_0000, 0x7fc0_0000)
}
