// What a float is for, and the numbers that bound it.
ghost use Rattle.std.specs.Prelude.{◌≡◌};
ghost use Rattle.float_domain.specs.Domain.{in_range, in_size, in_limit, in_factor, in_proportion, in_domain};

use float_track::SIGN_BIT;

#[derive(Clone, Copy)]
pub enum Kind {
    // A size or a space.
    Size,
    // A size, or +infinity.
    Limit,
    // Zero or a proportion.
    Factor,
    Proportion,
}

impl Kind {
    const LEAST_SIZE: f32 = 0.0;

    const MOST_SIZE: f32 = 1_000_000.0;

    const LEAST_PROPORTION: f32 = 0.001;

    const MOST_PROPORTION: f32 = 1_000.0;

    pub fn holds(self, x: f32) -> bool
        ensures { result ≡ in_domain self x }
    {
        match self {
            Kind::Size => in_size(x),
            Kind::Limit => in_limit(x),
            Kind::Factor => in_factor(x),
            Kind::Proportion => in_proportion(x),
        }
    }
}

// Between the two, with a clear sign bit: -0.0 is out. A NaN is in no range.
fn in_range(least: f32, x: f32, most: f32) -> bool
    ensures { result ≡ in_range least x most }
{
    x <= most && least <= x && f32::to_bits(x) < SIGN_BIT
}

fn in_size(x: f32) -> bool
    ensures { result ≡ in_size x }
{
    in_range(Kind::LEAST_SIZE, x, Kind::MOST_SIZE)
}

fn in_limit(x: f32) -> bool
    ensures { result ≡ in_limit x }
{
    x == f32::INFINITY || in_size(x)
}

fn in_proportion(x: f32) -> bool
    ensures { result ≡ in_proportion x }
{
    in_range(Kind::LEAST_PROPORTION, x, Kind::MOST_PROPORTION)
}

fn in_factor(x: f32) -> bool
    ensures { result ≡ in_factor x }
{
    if x == 0.0 {
        return in_range(0.0, x, 0.0);
    }
    in_proportion(x)
}
