// Passes over all lines that look at one line at a time.
ghost use Rattle.std.specs.Prelude.{◌≡◌, map, length, Some};
ghost use Rattle.kinds.specs.Kinds.{track_of};
ghost use Rattle.lines.specs.declared.line.Line.{Line};
ghost use Rattle.lines.specs.Rule.{with_base, with_limit, limit_size, settled, missing, start};
ghost use Rattle.lines.specs.Lines.{Makes};

use crate::line::Line;
use kinds::Track;

// Step 1. By index into the tracks: the library's lemmas over `zip` are of two lists that are read, and here one is written.
#[tactic(auto, unfolding(crate::specs::Rule::start))]
pub fn start(tracks: &[[u32; 4]], lines: &mut [Line])
    requires { length lines.old ≡ length tracks.now }
    ensures { lines.new ≡ start (map track_of tracks.now) }
{
    for (i, line) in lines.iter_mut().enumerate() {
        *line = Line::start(Track::of_row(tracks[i]));
    }
}

// Every line becomes what `make` makes of it.
fn remake<F: Fn(Line) -> Line>(lines: &mut [Line], make: F)
    requires { F.IsAlwaysCallable make }
    ensures { (made : Line → Line) → Makes (F.post make) made → lines.new ≡ map made lines.old }
{
    for line in lines.iter_mut() {
        *line = make(*line);
    }
}

// A limit below base becomes base.
pub fn settled(line: Line) -> Line
    ensures { result ≡ settled line }
{
    Line {
        limit: line.limit.map(|n| line.base.max(n)),
        ..line
    }
}

// Every limit below its base becomes that base.
pub fn settle(lines: &mut [Line])
    ensures { lines.new ≡ map settled lines.old }
{
    remake(lines, settled);
}

// Step 4: a missing limit becomes base.
#[tactic(auto, unfolding(crate::specs::Rule::missing))]
pub fn fill_missing(lines: &mut [Line])
    ensures { lines.new ≡ missing lines.old }
{
    remake(
        lines,
        |line|
            ensures { result ≡ with_limit line (Some (limit_size line)) }
        {
            Line {
                limit: Some(line.limit_size()),
                ..line
            }
        },
    );
}

// Every base becomes its limit.
pub fn bases_to_limits(lines: &mut [Line])
    ensures { lines.new ≡ map (λ (l : Line). with_base l (limit_size l)) lines.old }
{
    remake(
        lines,
        |line|
            ensures { result ≡ with_base line (limit_size line) }
        {
            Line {
                base: line.limit_size(),
                ..line
            }
        },
    );
}
