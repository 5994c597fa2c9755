// The row of a space: its constraint and its inner size, each a tag and a number, then its stretch byte and its axis byte.
#![tactic(auto, unfolding(records::specs::Rule::record_size, records::specs::Rule::row_at))]

ghost use Rattle.records.specs.Rule.{space_record};
ghost use Rattle.rows.specs.Sizes.{space_size};

use crate::{MARK_SIZE, RecordRow, TAGGED_SIZE, put_tagged};
use records::numbers::{byte_at, four_at, put_byte};
use records::{Refusal, tags};
use sheet_kinds::SpaceRow;

impl RecordRow for SpaceRow {
    ghost parts = { space_record };

    ghost numbers = { λ row. row };

    ghost SIZE = { 12 };

    const SIZE: usize = TAGGED_SIZE + TAGGED_SIZE + MARK_SIZE + MARK_SIZE;

    fn read(bytes: &[u8], at: usize) -> SpaceRow {
        let inner = at + TAGGED_SIZE;
        let stretch = inner + TAGGED_SIZE;
        [
            byte_at(bytes, at),
            four_at(bytes, at + 1),
            byte_at(bytes, inner),
            four_at(bytes, inner + 1),
            byte_at(bytes, stretch),
            byte_at(bytes, stretch + MARK_SIZE),
        ]
    }

    fn fault(self, at: usize) -> Result<(), Refusal> {
        let inner_at = at + TAGGED_SIZE;
        let stretch_at = inner_at + TAGGED_SIZE;
        tags::constraint(self[0]).fault(self[1], at)?;
        tags::given(self[2]).fault(self[3], inner_at)?;
        tags::stretch_fault(self[4], stretch_at)?;
        tags::axis_fault(self[5], stretch_at + MARK_SIZE)
    }

    fn put(self, bytes: &mut [u8], at: usize) {
        let inner = at + TAGGED_SIZE;
        let stretch = inner + TAGGED_SIZE;
        put_tagged(self[0], self[1], bytes, at);
        put_tagged(self[2], self[3], bytes, inner);
        put_byte(self[4], bytes, stretch);
        put_byte(self[5], bytes, stretch + MARK_SIZE);
    }

    ghost size_is = { space_size };
}
