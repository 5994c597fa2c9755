// Step 2: items in one track. Base and limit become the largest that an item asks, by the track's kinds.
ghost use Rattle.std.specs.Prelude.{◌≡◌, [], ◌∷◌, ◌≤◌, length};
ghost use Rattle.laws.specs.Lists.{in_turn};
ghost use Rattle.lines.specs.Rule.{base_asked, limit_asked, with_item_at, singles};
ghost use Rattle.lines.specs.Fits.{LinesFit, MeasuredFits, MeasuredFit};
ghost use Rattle.rounds.specs.Rule.{most_tracks};

use kinds::{Constraint, ContributionKind, Maximum, Minimum};
use letters::Span;
use lines::{Chain, Line, Measured, limit_with, settle};

// What an item asks of the base; `own` is the one line of the item's track.
fn base_asked(constraint: Constraint, item: Measured, line: Line, own: &[Line]) -> u32
    requires { (length own.now ≤ most_tracks) × LinesFit own.now × (own.now ≡ line ∷ []) }
    ensures { result ≡ base_asked constraint item line line.track.minimum }
{
    match line.track.minimum {
        Minimum::Fixed(_) => 0,
        Minimum::Auto => Span { lines: own }.for_auto(constraint, item),
        Minimum::MinContent => item.at(ContributionKind::MinContent),
        Minimum::MaxContent => item.at(ContributionKind::MaxContent),
    }
}

// What an item makes of the limit.
fn limit_asked(item: Measured, line: Line) -> Option<u32>
    ensures { result ≡ limit_asked item line.limit line.track.maximum }
{
    let limit = line.limit;
    match line.track.maximum {
        Maximum::Fixed(_) | Maximum::Fr(_) => limit,
        Maximum::Auto | Maximum::MaxContent => limit_with(
            item.at(ContributionKind::MaxContent),
            limit,
        ),
        Maximum::MinContent => limit_with(item.at(ContributionKind::MinContent), limit),
        Maximum::FitContent(n) => limit_with(n.min(item.at(ContributionKind::MaxContent)), limit),
    }
}

fn with_item(constraint: Constraint, item: Measured, lines: &mut [Line])
    requires { LinesFit lines.old × MeasuredFits (length lines.old) item }
    ensures { (lines.new ≡ with_item_at constraint item lines.old)
        × LinesFit lines.new }
{
    let t = item.start as usize;
    let line = lines[t];
    let asked = base_asked(constraint, item, line, &lines[t..t + 1]);
    lines[t] = Line {
        base: line.base.max(asked),
        limit: limit_asked(item, line),
        ..line
    };
}

fn take_singles(constraint: Constraint, batch: &Chain<'_>, lines: &mut [Line])
    requires { LinesFit lines.old × MeasuredFit (length lines.old) batch.now }
    ensures { (lines.new ≡ in_turn (with_item_at constraint) batch.now lines.old)
        × LinesFit lines.new }
{
    for item in batch.walk() {
        with_item(constraint, item, lines);
    }
}

pub fn singles(constraint: Constraint, batch: &Chain<'_>, lines: &mut [Line])
    requires { LinesFit lines.old × MeasuredFit (length lines.old) batch.now }
    ensures { (lines.new ≡ singles constraint batch.now lines.old)
        × LinesFit lines.new }
{
    take_singles(constraint, batch, lines);
    settle(lines);
}
