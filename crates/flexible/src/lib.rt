// The flexible tracks: step 6 of the sizing (the rule is in the specs of lines). Lines and marks stay two lent slices: both are
// cut for one item (`&lines[a..e], &mut held[a..e]`), where a struct of them would be taken apart at once.
#![tactic(auto)]

mod grow;
mod max_content;
mod search;

ghost use Rattle.std.specs.Prelude.{◌≡◌, ◌≤◌, length};
ghost use Rattle.rounds.specs.Rule.{most_dots};
ghost use Rattle.kinds.specs.Kinds.{constraint_number};
ghost use Rattle.lines.specs.Rule.{bases, expand};
ghost use Rattle.lines.specs.Fits.{MeasuredFit};
ghost use Rattle.flexible.specs.Flexes.{fr_over, StoreFits};

pub use grow::expand;
use kinds::Constraint;
use lines::{Chain, Fr, Line};
pub use max_content::{bases_fr, max_content_fr};
pub use search::search_over;

// Step 6 whole: every fr track grows, by cases on the expansion space. `total` is the sum of the bases, and the batch has the items that
// cross an fr track.
pub fn flex(e: Constraint, total: u64, batch: &Chain<'_>, lines: &mut [Line], held: &mut [bool])
    requires store_fits { StoreFits lines.old held.old }
    requires batch_fits { MeasuredFit (length lines.old) batch.now }
    requires total_value { (total ≡ bases lines.old) × (constraint_number e ≤ most_dots) }
    ensures { lines.new ≡ expand (fr_over e batch.now lines.old) lines.old }
{
    let fr = fr_over(e, total, batch, lines, held);
    grow::expand(fr, lines);
}

// No growth where the space is min-content, or definite without dots that are free.
fn fr_over(e: Constraint, total: u64, batch: &Chain<'_>, lines: &[Line], held: &mut [bool]) -> Fr
    requires store_fits { StoreFits lines.now held.old }
    requires batch_fits { MeasuredFit (length lines.now) batch.now }
    requires total_value { total ≡ bases lines.now }
    ensures { result ≡ fr_over e batch.now lines.now }
{
    match e {
        Constraint::Definite(n) if total < n as u64 => search::search_over(n, lines, held),
        Constraint::MaxContent => max_content::max_content_fr(batch, lines, held),
        _ => Fr::NONE,
    }
}
