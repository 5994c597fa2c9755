// The lists of a distribution: each track's part in it, apart as C lends them.
ghost use Rattle.std.specs.Prelude.{◌≡◌, ◌<◌, length};
ghost use Rattle.float_distribution.specs.Distribution.{lists, OneLength, part_at};

use crate::part::Part;

// Whether each track is affected, its proportion, the size that grows and the limit it grows to. The tracks themselves are lent beside this,
// and each function asks that they are as many: a pass writes them, and reads these.
#[derive(Clone, Copy)]
pub struct Parts<'a> {
    affected: &'a [bool],
    proportions: &'a [f32],
    sizes: &'a [f32],
    limits: &'a [f32],
    ghost lengths: { OneLength affected.now proportions.now sizes.now limits.now (length affected.now) },
}

impl<'a> Parts<'a> {
    ghost use Rattle.float_distribution.specs.Parts.{in_lists, count};

    pub fn new(
        affected: &'a [bool],
        proportions: &'a [f32],
        sizes: &'a [f32],
        limits: &'a [f32],
    ) -> Parts<'a>
        requires { OneLength affected.now proportions.now sizes.now limits.now (length affected.now) }
        ensures { in_lists result ≡ lists affected.now proportions.now sizes.now limits.now }
    {
        Parts {
            affected,
            proportions,
            sizes,
            limits,
        }
    }

    pub(crate) fn part(&self, i: usize) -> Part
        requires { i < count self.now }
        ensures { result ≡ part_at (in_lists self.now) i }
    {
        Part {
            affected: self.affected[i],
            proportion: self.proportions[i],
            size: self.sizes[i],
            limit: self.limits[i],
        }
    }
}
