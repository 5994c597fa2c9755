// The smaller and the larger of two floats. float_laws shows that for the floats of the domain these are the Rust's own.
//
// Not `a.min(b)`: of two that compare equal it may give either, and it passes over a NaN, but the promises name one result, min_of and max_of.
ghost use Rattle.std.specs.Prelude.{◌≡◌};
ghost use Rattle.float_laws.specs.Std.{min_of, max_of};

pub fn f32_min(a: f32, b: f32) -> f32
    ensures { result ≡ min_of a b }
{
    if a < b { a } else { b }
}

pub fn f32_max(a: f32, b: f32) -> f32
    ensures { result ≡ max_of a b }
{
    if a < b { b } else { a }
}
