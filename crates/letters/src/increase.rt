// The increases of a letter: each track's is the largest any item gave it, and all are applied at the letter's end. Lists that go along are read by index,
// as in share.rt.
ghost use Rattle.std.specs.Prelude.{◌≡◌, length};
ghost use mathlib.Core.List.{zip_with};
ghost use Rattle.laws.specs.Lists.{larger};
ghost use Rattle.lines.specs.Rule.{grown_base};
ghost use Rattle.letters.specs.Increases.{Applicable, BasesApplicable, applied, NoIncrease};

use crate::letter::Letter;
use lines::Line;

// What an item gave is laid over the largest that any gave before.
pub fn lay_over(gains: &[u32], increases: &mut [u32])
    requires { length gains.now ≡ length increases.old }
    ensures { increases.new ≡ larger gains.now increases.old }
{
    for (i, increase) in increases.iter_mut().enumerate() {
        *increase = gains[i].max(*increase);
    }
}

// Every line grows by its increase, and no increase is left.
pub fn apply(letter: Letter, lines: &mut [Line], increases: &mut [u32])
    requires { Applicable letter lines.old increases.old }
    ensures { (lines.new ≡ applied letter lines.old increases.old)
        × NoIncrease lines.old increases.new }
{
    for (i, line) in lines.iter_mut().enumerate() {
        *line = letter.grown(*line, increases[i]);
        increases[i] = 0;
    }
}

// Every base grows by its increase, as (a) has it: what steps 5 and 7 do.
pub fn grow_bases(lines: &mut [Line], increases: &mut [u32])
    requires { BasesApplicable lines.old increases.old }
    ensures { (lines.new ≡ zip_with grown_base lines.old increases.old)
        × NoIncrease lines.old increases.new }
{
    apply(Letter::A, lines, increases);
}
