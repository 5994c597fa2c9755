// The row of a track: its minimum and its maximum, each a tag and a number.
#![tactic(auto, unfolding(records::specs::Rule::record_size, records::specs::Rule::row_at))]

ghost use Rattle.records.specs.Rule.{track_record};
ghost use Rattle.rows.specs.Sizes.{track_size};

use crate::{RecordRow, TAGGED_SIZE, TrackRow, put_tagged};
use records::numbers::{byte_at, four_at};
use records::{Refusal, tags};

impl RecordRow for TrackRow {
    ghost parts = { track_record };

    ghost numbers = { λ row. row };

    ghost SIZE = { 10 };

    const SIZE: usize = TAGGED_SIZE + TAGGED_SIZE;

    fn read(bytes: &[u8], at: usize) -> TrackRow {
        let maximum = at + TAGGED_SIZE;
        [
            byte_at(bytes, at),
            four_at(bytes, at + 1),
            byte_at(bytes, maximum),
            four_at(bytes, maximum + 1),
        ]
    }

    fn fault(self, at: usize) -> Result<(), Refusal> {
        tags::minimum(self[0]).fault(self[1], at)?;
        tags::maximum(self[2]).fault(self[3], at + TAGGED_SIZE)
    }

    fn put(self, bytes: &mut [u8], at: usize) {
        put_tagged(self[0], self[1], bytes, at);
        put_tagged(self[2], self[3], bytes, at + TAGGED_SIZE);
    }

    ghost size_is = { track_size };
}
