// Floats of a case, each its bit pattern, and whether two are the same: bit for bit, all NaNs being one.
ghost use Rattle.std.specs.Prelude.{◌≡◌, true};
ghost use Rattle.std.specs.Float.Ieee.{of_bits};
ghost use Rattle.std.specs.Float.{binary32};
ghost use Rattle.texts.specs.Reading.{Onward};
ghost use Rattle.float_vectors.specs.Wanted.{bits_of};

use cases::{Stop, Text};
use float_track::{INFINITY_BITS, SIGN_BIT};

// f32::from_bits is undefined at a NaN's pattern, which without its sign is above that of the infinity.
fn float_of(bits: u32) -> f32
    ensures { result ≡ of_bits binary32 bits }
{
    if bits % SIGN_BIT > INFINITY_BITS {
        let zero: f32 = 0.0;
        return zero / zero;
    }
    f32::from_bits(bits)
}

pub fn read_float(text: &mut Text) -> Result<f32, Stop>
    ensures { Onward text.old result text.new }
{
    Ok(float_of(text.number()?))
}

// The one pattern of all NaNs, at which f32::to_bits is undefined.
const NAN_BITS: u32 = 0x7FC00000;

pub fn bits(x: f32) -> u32
    ensures { result ≡ bits_of x }
{
    if x != x {
        return NAN_BITS;
    }
    f32::to_bits(x)
}

pub fn same_float(a: f32, b: f32) -> bool
    ensures { result ≡ true → bits_of a ≡ bits_of b }
{
    bits(a) == bits(b)
}
