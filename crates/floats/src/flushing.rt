// The two flushes: a track's planned increase goes to its base size, or to its growth limit.
ghost use Rattle.std.specs.Prelude.{◌≡◌};
ghost use Rattle.laws.specs.Faults.{fine};
ghost use Rattle.float_track.specs.Track.{row_of};
ghost use Rattle.float_agreement.specs.Inputs.{TrackInputs};
ghost use Rattle.floats.specs.Rule.{flush_fault, flush_base_call, flush_limit_call};
ghost use Rattle.floats.specs.Answer.{flush_told};

use float_domain::{Refusal, track_fault};
use float_track::Track;

pub fn flush_planned_base_size_increases(track: Track) -> Result<Track, Refusal>
    ensures as_rule { flush_told result ≡ flush_base_call track }
    ensures track_inputs { flush_fault track ≡ fine → TrackInputs (row_of track) }
{
    track_fault(0, track.row())?;
    Ok(track.flush_planned_base_size_increases())
}

// The mark is the one that a limit with an increase gets; any other limit's mark is cleared.
pub fn flush_planned_growth_limit_increases(track: Track, mark: bool) -> Result<Track, Refusal>
    ensures as_rule { flush_told result ≡ flush_limit_call track mark }
    ensures track_inputs { flush_fault track ≡ fine → TrackInputs (row_of track) }
{
    track_fault(0, track.row())?;
    Ok(track.flush_planned_growth_limit_increases(mark))
}
