// What alignment adds to each gutter, where the inner size and every track's estimate are known (specs/Gutters.antt names
// the Rust's float steps in the Rust's order).
#![tactic(auto)]

ghost use Rattle.std.specs.Prelude.{◌≡◌, ◌<◌, length};
ghost use Rattle.std.specs.List.{list_all};
ghost use Rattle.float_laws.specs.Sum.{sum_of};
ghost use Rattle.float_gutters.specs.Gutters.{outer_weight, inner_weight, itself, free_of, adjustment, gutter_adjustment, GutterCount};

use float_track::f32_max;

// The keywords of the Rust, in its order.
#[derive(Clone, Copy)]
pub enum AlignContent {
    Normal,
    Start,
    End,
    FlexStart,
    FlexEnd,
    Center,
    Stretch,
    SpaceBetween,
    SpaceEvenly,
    SpaceAround,
}

impl AlignContent {
    fn outer_gutter_weight(self) -> usize
        ensures { result ≡ outer_weight self }
    {
        match self {
            AlignContent::Normal | AlignContent::Stretch | AlignContent::SpaceBetween => 0,
            _ => 1,
        }
    }

    fn inner_gutter_weight(self) -> usize
        ensures { result ≡ inner_weight self }
    {
        match self {
            AlignContent::SpaceBetween | AlignContent::SpaceEvenly => 1,
            AlignContent::SpaceAround => 2,
            _ => 0,
        }
    }
}

fn all_known(known: &[bool]) -> bool
    ensures { result ≡ list_all itself known.now }
{
    known.iter().all(|is_known| *is_known)
}

fn sum_of(estimates: &[f32]) -> f32
    ensures { result ≡ sum_of estimates.now }
{
    let mut sum: f32 = -0.0;
    for estimate in estimates {
        sum += *estimate;
    }
    sum
}

// What the tracks leave free of a size: nothing where an estimate is absent. The marks and the estimates are apart, here and below, since C lends
// them so.
#[tactic(auto, using(laws::specs::Lists::every_of_all))]
fn free_of(size: f32, known: &[bool], estimates: &[f32]) -> f32
    ensures { result ≡ free_of size known.now estimates.now }
{
    if all_known(known) {
        f32_max(0.0, size - sum_of(estimates))
    } else {
        0.0
    }
}

// The free space by the weight of all gutters, times an inner gutter's.
fn adjustment_of(alignment: AlignContent, free: f32, count: usize) -> f32
    requires { GutterCount count × (1 < count) }
    ensures { result ≡ adjustment alignment free count }
{
    let inner = alignment.inner_gutter_weight();
    let weights = (count - 3) / 2 * inner + 2 * alignment.outer_gutter_weight();
    free / (weights as f32) * (inner as f32)
}

pub fn compute_alignment_gutter_adjustment(
    alignment: AlignContent,
    inner: Option<f32>,
    known: &[bool],
    estimates: &[f32],
) -> f32
    requires { GutterCount (length known.now) }
    ensures { result ≡ gutter_adjustment alignment inner known.now estimates.now }
{
    let count = known.len();
    if count <= 1 || alignment.inner_gutter_weight() == 0 {
        return 0.0;
    }
    match inner {
        Some(size) => adjustment_of(alignment, free_of(size, known, estimates), count),
        None => 0.0,
    }
}
