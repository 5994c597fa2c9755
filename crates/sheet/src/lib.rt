// The sheet: its bytes are met here and, record by record, in `rows` and `records` below it, and nowhere else (specs/Rule.antt is the
// rule, docs/SHEET.md the format in words).
#![tactic(auto)]

mod reading;
mod sections;
mod writing;

ghost use Rattle.std.specs.Prelude.{◌≡◌};
ghost use Rattle.sheet.specs.Rule.{end_from_call, end_call};
ghost use Rattle.sheet.specs.Answer.{end_told};

pub use kinds::{Constraint, ContributionKind, Item, amount};
pub use reading::{Contents, read};
pub use records::Refusal;
pub use sections::{LONGEST, SPACE_AT, counts_fault_from, fault_from, over_fault, says_few};
pub use sheet_kinds::{Axis, SheetMaximum, SheetMinimum, SheetTrack, Space, SpaceRow};
pub use writing::write;

// Where the sheet at the front of these bytes ends, by its three counts. Nothing else is read.
pub fn end(bytes: &[u8]) -> Result<usize, Refusal>
    ensures { end_told result ≡ end_call bytes.now }
{
    end_from(bytes, 0)
}

// The same of the sheet that begins at `at`.
#[tactic(auto, unfolding(crate::specs::Rule::end_from_call))]
pub fn end_from(bytes: &[u8], at: usize) -> Result<usize, Refusal>
    ensures { end_told result ≡ end_from_call bytes.now at }
{
    sections::counts_fault_from(bytes, at)?;
    Ok(sections::counted_end(bytes, at))
}
