// The row of an item: its start and span as one number, and then its three contributions, each a tag and a number.
#![tactic(auto, unfolding(records::specs::Rule::record_size, records::specs::Rule::row_at))]

ghost use Rattle.records.specs.Rule.{item_record};
ghost use Rattle.rows.specs.Sizes.{item_size};

use crate::{ItemRow, PAIR_SIZE, RecordRow, TAGGED_SIZE, put_tagged};
use records::numbers::{byte_at, four_at, put_four};
use records::{Refusal, tags};

impl RecordRow for ItemRow {
    ghost parts = { item_record };

    ghost numbers = { λ row. row };

    ghost SIZE = { 19 };

    const SIZE: usize = PAIR_SIZE + TAGGED_SIZE + TAGGED_SIZE + TAGGED_SIZE;

    fn read(bytes: &[u8], at: usize) -> ItemRow {
        let minimum = at + PAIR_SIZE;
        let min_content = minimum + TAGGED_SIZE;
        let max_content = min_content + TAGGED_SIZE;
        [
            four_at(bytes, at),
            byte_at(bytes, minimum),
            four_at(bytes, minimum + 1),
            byte_at(bytes, min_content),
            four_at(bytes, min_content + 1),
            byte_at(bytes, max_content),
            four_at(bytes, max_content + 1),
        ]
    }

    fn fault(self, at: usize) -> Result<(), Refusal> {
        let minimum_at = at + PAIR_SIZE;
        let min_content_at = minimum_at + TAGGED_SIZE;
        tags::given(self[1]).fault(self[2], minimum_at)?;
        tags::given(self[3]).fault(self[4], min_content_at)?;
        tags::given(self[5]).fault(self[6], min_content_at + TAGGED_SIZE)
    }

    fn put(self, bytes: &mut [u8], at: usize) {
        let minimum = at + PAIR_SIZE;
        let min_content = minimum + TAGGED_SIZE;
        put_four(self[0], bytes, at);
        put_tagged(self[1], self[2], bytes, minimum);
        put_tagged(self[3], self[4], bytes, min_content);
        put_tagged(self[5], self[6], bytes, min_content + TAGGED_SIZE);
    }

    ghost size_is = { item_size };
}
