// The fr under max-content: the largest that a base asks for, or an item that crosses an fr track.
ghost use Rattle.std.specs.Prelude.{◌≡◌, length};
ghost use Rattle.lines.specs.Rule.{bases_fr, item_fr};
ghost use Rattle.lines.specs.Fr.{larger_fr};
ghost use Rattle.lines.specs.Fits.{MeasuredFits, MeasuredFit};
ghost use Rattle.flexible.specs.Flexes.{line_fr, batch_fr, StoreFits};

use crate::search;
use kinds::ContributionKind;
use lines::{Chain, Fr, Line, Measured};
use spanned::is_fr;

// Compared crosswise, and of equal ones the first, as the rule has it: no `Ord`, for which equal fractions would have to be the same.
fn larger_fr(a: Fr, b: Fr) -> Fr
    ensures { result ≡ larger_fr a b }
{
    let left = a.dots as u64 * b.per as u64;
    let right = b.dots as u64 * a.per as u64;
    if left < right { b } else { a }
}

// Of an fr line, its base divided by the larger of its factor and 1, if that is more than the fr so far.
fn line_fr(line: Line, fr: Fr) -> Fr
    ensures { result ≡ line_fr line fr }
{
    if !is_fr(line.track) {
        return fr;
    }
    let own = Fr {
        dots: line.base,
        per: line.number().max(1000),
    };
    larger_fr(own, fr)
}

// The largest that a base asks for.
pub fn bases_fr(lines: &[Line]) -> Fr
    ensures { result ≡ bases_fr lines.now }
{
    let mut fr = Fr::NONE;
    for line in lines {
        fr = line_fr(*line, fr);
    }
    fr
}

// The search over the lines that an item spans, to its max-content contribution.
fn item_fr(item: Measured, lines: &[Line], held: &mut [bool], fr: Fr) -> Fr
    requires store_fits { StoreFits lines.now held.old }
    requires item_fits { MeasuredFits (length lines.now) item }
    ensures { result ≡ item_fr lines.now item fr }
{
    let a = item.start as usize;
    let e = a + item.span as usize;
    let asked = item.at(ContributionKind::MaxContent);
    let found = search::search_over(asked, &lines[a..e], &mut held[a..e]);
    larger_fr(found, fr)
}

// The largest that a base asks for, or an item of the batch.
pub fn max_content_fr(batch: &Chain<'_>, lines: &[Line], held: &mut [bool]) -> Fr
    requires store_fits { StoreFits lines.now held.old }
    requires batch_fits { MeasuredFit (length lines.now) batch.now }
    ensures { result ≡ batch_fr batch.now lines.now }
{
    let mut fr = bases_fr(lines);
    for item in batch.walk() {
        fr = item_fr(item, lines, held, fr);
    }
    fr
}
