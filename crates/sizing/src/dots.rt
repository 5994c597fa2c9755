// Steps 5 and 7: free dots are filled into the bases. The store is lent slice by slice, as in `size`.
ghost use Rattle.std.specs.Prelude.{◌≡◌, ◌≤◌};
ghost use Rattle.rounds.specs.Rule.{most_dots};
ghost use Rattle.spanned.specs.Sound.{ConstraintFits};
ghost use Rattle.lines.specs.Rule.{filled_lines, maximise, stretched};
ghost use Rattle.letters.specs.Increases.{NoIncrease};
ghost use Rattle.letters.specs.Shares.{share_fill};
ghost use Rattle.sizing.specs.Size.{maximised};
ghost use Rattle.sizing.specs.Store.{Filling};

use kinds::Constraint;
use letters::{Share, base_total, beyond, grow_bases, share_out};
use lines::{Line, bases_to_limits};

// Each base grows by what the fill gives it; the rounds come back. No increase is planned before and after.
fn fill_bases(
    share: Share,
    dots: u32,
    lines: &mut [Line],
    increases: &mut [u32],
    rests: &mut [u32],
) -> u32
    requires { Filling lines.old increases.old rests.old × (dots ≤ most_dots) }
    ensures { (lines.new ≡ filled_lines lines.old (share_fill share dots lines.old increases.old))
        × (result ≡ (share_fill share dots lines.old increases.old).rounds)
        × NoIncrease lines.old increases.new }
{
    let rounds = share_out(share, dots, lines, increases, rests);
    grow_bases(lines, increases);
    rounds
}

// Step 5. The rounds come back.
pub(crate) fn maximise(
    constraint: Constraint,
    lines: &mut [Line],
    increases: &mut [u32],
    rests: &mut [u32],
) -> u32
    requires { Filling lines.old increases.old rests.old × ConstraintFits constraint }
    ensures { (maximised lines.new result ≡ maximise constraint lines.old)
        × NoIncrease lines.old increases.new }
{
    match constraint {
        Constraint::Definite(n) => {
            let dots = beyond(n, base_total(lines));
            fill_bases(Share::Maximise, dots, lines, increases, rests)
        }
        Constraint::MinContent => fill_bases(Share::Maximise, 0, lines, increases, rests),
        Constraint::MaxContent => {
            bases_to_limits(lines);
            0
        }
    }
}

// Step 7, if asked for.
pub(crate) fn stretch(
    asked: bool,
    expansion: Constraint,
    lines: &mut [Line],
    increases: &mut [u32],
    rests: &mut [u32],
)
    requires { Filling lines.old increases.old rests.old × ConstraintFits expansion }
    ensures { lines.new ≡ stretched asked expansion lines.old }
{
    if !asked {
        return;
    }
    if let Constraint::Definite(n) = expansion {
        let dots = beyond(n, base_total(lines));
        fill_bases(Share::Stretch, dots, lines, increases, rests);
    }
}
