// 12: the slices of a call are of one length, at most that of the longest board.
ghost use Rattle.std.specs.Prelude.{◌≡◌};
ghost use Rattle.float_domain.specs.Domain.{lengths_fault};
ghost use Rattle.float_domain.specs.Answer.{fault_of};

use crate::refusal::Refusal;
use float_track::Track;

// The first slice has n places, and the others as many as they say. They are walked by `for`: over `all` the proof that the rule's
// `lengths_fit` says the same did not close.
pub fn lengths_fault(n: usize, others: &[usize]) -> Result<(), Refusal>
    ensures { fault_of result ≡ lengths_fault n others.now }
{
    for other in others {
        if *other != n {
            return Err(Refusal::Lengths);
        }
    }
    if n > Track::MOST {
        return Err(Refusal::Lengths);
    }
    Ok(())
}
