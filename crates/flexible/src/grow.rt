// The growth of fr tracks, rounded down after the product.
ghost use Rattle.std.specs.Prelude.{◌≡◌};
ghost use Rattle.lines.specs.Rule.{flexed, expand};
ghost use Rattle.lines.specs.Fits.{LinesFit};
ghost use Rattle.flexible.specs.Flexes.{FrFits, FactorFits};

use lines::{Fr, Line};
use spanned::is_fr;

// Each fr track becomes the larger of base and factor times fr.
pub fn expand(fr: Fr, lines: &mut [Line])
    requires fr_fits { FrFits fr }
    requires lines_fit { LinesFit lines.old }
    ensures { lines.new ≡ expand fr lines.old }
{
    for line in lines.iter_mut() {
        *line = flexed(fr, *line);
    }
}

fn flexed(fr: Fr, line: Line) -> Line
    requires fr_fits { FrFits fr }
    requires factor_fits { FactorFits line }
    ensures { result ≡ flexed fr line }
{
    let share = line.number() as u64 * fr.dots as u64 / fr.per as u64;
    let grown = line.base.max(share as u32);
    Line {
        base: if is_fr(line.track) { grown } else { line.base },
        ..line
    }
}
