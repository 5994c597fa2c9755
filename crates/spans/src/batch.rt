// Step 3: one batch of items, letter by letter. The store stays five slices and no struct: no heap, so all five are lent; a letter changes the
// lines before it makes the totals anew, so that no invariant over them holds at each write; and a function on a struct of `&mut` would
// have to promise of each field that it is the same slice as before. Kind, letter and constraint stay three words to copy, which each function hands on:
// a struct of them would be made anew for each letter.
ghost use Rattle.std.specs.Prelude.{◌≡◌, false, [], ◌∷◌, length};
ghost use Rattle.lines.specs.Rule.{raise};
ghost use Rattle.lines.specs.Fits.{MeasuredFits, MeasuredFit};
ghost use Rattle.letters.specs.Letters.{letter_of};
ghost use Rattle.letters.specs.Batches.{shares_in, batched_in};
ghost use Rattle.spans.specs.Work.{Planning, Planned, Working, Calm, BatchesOn, letter_runs, letter_step, letter_steps, all_steps, longer_lines};

use kinds::Constraint;
use letters::{Batch, Letter, Span, Totals, affects_some, apply, lay_over, share_in, tally};
use lines::{Batches, Chain, Line, Measured};

// What one item gives each line that it spans is laid over the increases. Gains and rests are scratch, the sums are the lines'
// totals. Whether anything was laid over comes back: an item that asks nothing, or of no affected line, gives nothing.
fn plan_item(
    kind: Batch,
    letter: Letter,
    constraint: Constraint,
    item: Measured,
    lines: &[Line],
    increases: &mut [u32],
    gains: &mut [u32],
    rests: &mut [u32],
    sums: &[Totals],
) -> bool
    requires { Planning lines.now increases.old gains.old rests.old sums.now × MeasuredFits (length lines.now) item }
    ensures { Planned kind letter constraint lines.now (item ∷ []) increases.old increases.new result }
{
    let a = item.start as usize;
    let n = item.span as usize;
    let e = a + n;
    let on = &lines[a..e];
    let total = letter.total_between(sums[a], sums[e]);
    let dots = Span { lines: on }.extra(letter, constraint, item, total);
    if dots == 0 {
        return false;
    }
    if !affects_some(kind, letter, on) {
        return false;
    }
    share_in(kind, letter, dots, on, &mut gains[..n], &mut rests[..n]);
    lay_over(&gains[..n], &mut increases[a..e]);
    true
}

// The increases of a batch: each item in its turn looks at the lines as they were. Whether there are any comes back.
fn plan_batch(
    kind: Batch,
    letter: Letter,
    constraint: Constraint,
    batch: &Chain<'_>,
    lines: &[Line],
    increases: &mut [u32],
    gains: &mut [u32],
    rests: &mut [u32],
    sums: &[Totals],
) -> bool
    requires { Planning lines.now increases.old gains.old rests.old sums.now × MeasuredFit (length lines.now) batch.now }
    ensures { Planned kind letter constraint lines.now batch.now increases.old increases.new result }
{
    let mut planned = false;
    for item in batch.walk() {
        let gives = plan_item(
            kind, letter, constraint, item, lines, increases, gains, rests, sums,
        );
        planned = planned | gives;
    }
    planned
}

// One letter: increases are planned over the whole batch, then applied, and the totals made anew. The increases are all 0 before
// and after. Where nothing is planned a letter changes no calm line, and the first three change no line at all. `moved` says that
// lines may not be calm; it comes back for the next letter.
fn raise(
    kind: Batch,
    letter: Letter,
    constraint: Constraint,
    moved: bool,
    batch: &Chain<'_>,
    lines: &mut [Line],
    increases: &mut [u32],
    gains: &mut [u32],
    rests: &mut [u32],
    sums: &mut [Totals],
) -> bool
    requires { Working lines.old increases.old gains.old rests.old sums.old
        × MeasuredFit (length lines.old) batch.now
        × (moved ≡ false → Calm lines.old) }
    ensures { (lines.new ≡ raise (shares_in kind) constraint batch.now (letter_of letter) lines.old)
        × Working lines.new increases.new gains.new rests.new sums.new
        × (result ≡ false → Calm lines.new) }
{
    let planned = plan_batch(
        kind, letter, constraint, batch, lines, increases, gains, rests, sums,
    );
    let applies = planned | (moved & letter.changes_unraised());
    if !applies {
        return moved;
    }
    apply(letter, lines, increases);
    tally(lines, sums);
    true
}

// (c) is run under max-content only, (e) and (f) not in the last batch.
fn letter_runs(kind: Batch, letter: Letter, constraint: Constraint) -> bool
    ensures { result ≡ letter_runs kind constraint letter }
{
    match letter {
        Letter::C => matches!(constraint, Constraint::MaxContent),
        Letter::E | Letter::F => matches!(kind, Batch::OfSpan),
        _ => true,
    }
}

// One letter of a batch, where it is run.
fn raise_where_run(
    kind: Batch,
    letter: Letter,
    constraint: Constraint,
    moved: bool,
    batch: &Chain<'_>,
    lines: &mut [Line],
    increases: &mut [u32],
    gains: &mut [u32],
    rests: &mut [u32],
    sums: &mut [Totals],
) -> bool
    requires { Working lines.old increases.old gains.old rests.old sums.old
        × MeasuredFit (length lines.old) batch.now
        × (moved ≡ false → Calm lines.old) }
    ensures { (lines.new ≡ letter_step kind constraint batch.now letter lines.old)
        × Working lines.new increases.new gains.new rests.new sums.new
        × (result ≡ false → Calm lines.new) }
{
    if !letter_runs(kind, letter, constraint) {
        return moved;
    }
    raise(
        kind, letter, constraint, moved, batch, lines, increases, gains, rests, sums,
    )
}

// Letters of a batch in their order, on lines that are calm.
fn raise_letters(
    kind: Batch,
    letters: &[Letter],
    constraint: Constraint,
    batch: &Chain<'_>,
    lines: &mut [Line],
    increases: &mut [u32],
    gains: &mut [u32],
    rests: &mut [u32],
    sums: &mut [Totals],
)
    requires { Working lines.old increases.old gains.old rests.old sums.old
        × MeasuredFit (length lines.old) batch.now
        × Calm lines.old }
    ensures { (lines.new ≡ letter_steps kind constraint batch.now letters.now lines.old)
        × Working lines.new increases.new gains.new rests.new sums.new }
{
    let mut moved = false;
    for letter in letters {
        moved = raise_where_run(
            kind, *letter, constraint, moved, batch, lines, increases, gains, rests, sums,
        );
    }
}

fn raise_all(
    kind: Batch,
    constraint: Constraint,
    batch: &Chain<'_>,
    lines: &mut [Line],
    increases: &mut [u32],
    gains: &mut [u32],
    rests: &mut [u32],
    sums: &mut [Totals],
)
    requires { Working lines.old increases.old gains.old rests.old sums.old
        × MeasuredFit (length lines.old) batch.now
        × Calm lines.old }
    ensures { (lines.new ≡ all_steps kind constraint batch.now lines.old)
        × Working lines.new increases.new gains.new rests.new sums.new }
{
    let bases = [Letter::A, Letter::B, Letter::C, Letter::D];
    raise_letters(
        kind, &bases, constraint, batch, lines, increases, gains, rests, sums,
    );
    // (d) leaves every line calm.
    let limits = [Letter::E, Letter::F];
    raise_letters(
        kind, &limits, constraint, batch, lines, increases, gains, rests, sums,
    );
}

// One batch, all its letters; without items it changes nothing.
pub fn batched(
    kind: Batch,
    constraint: Constraint,
    batch: &Chain<'_>,
    lines: &mut [Line],
    increases: &mut [u32],
    gains: &mut [u32],
    rests: &mut [u32],
    sums: &mut [Totals],
)
    requires { Working lines.old increases.old gains.old rests.old sums.old
        × MeasuredFit (length lines.old) batch.now
        × Calm lines.old }
    ensures { (lines.new ≡ batched_in kind constraint batch.now lines.old)
        × Working lines.new increases.new gains.new rests.new sums.new
        × Calm lines.new }
{
    if batch.is_empty() {
        return;
    }
    raise_all(
        kind, constraint, batch, lines, increases, gains, rests, sums,
    );
}

// Batch by batch in rising span.
pub fn longer(
    constraint: Constraint,
    batches: &Batches<'_>,
    lines: &mut [Line],
    increases: &mut [u32],
    gains: &mut [u32],
    rests: &mut [u32],
    sums: &mut [Totals],
)
    requires { Working lines.old increases.old gains.old rests.old sums.old
        × BatchesOn (length lines.old) batches.now
        × Calm lines.old }
    ensures { (lines.new ≡ longer_lines constraint batches.now lines.old)
        × Working lines.new increases.new gains.new rests.new sums.new
        × Calm lines.new }
{
    for k in 2..=lines.len() {
        batched(
            Batch::OfSpan,
            constraint,
            &batches.batch(k),
            lines,
            increases,
            gains,
            rests,
            sums,
        );
    }
}
