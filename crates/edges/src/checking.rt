// The one check of a list of edges: that it has an entry, starts at 0 and never falls. All else relies on it.
ghost use Rattle.std.specs.Prelude.{◌≡◌, ◌<◌, length};
ghost use Rattle.edges.specs.Rule.{edges_fault};
ghost use Rattle.edges.specs.Answer.{fault_of};
ghost use Rattle.edges.specs.Steps.{is_fault, behind_fault};

use crate::refusal::Refusal;

// Walks the list once, and a list that falls a second time up to where it does.
pub fn check(edges: &[u32]) -> Result<(), Refusal>
    ensures { fault_of result ≡ edges_fault edges.now }
{
    if edges.is_empty() || edges[0] != 0 {
        return Err(Refusal::Unsorted { entry: 0 });
    }
    if has_fall(edges) {
        return check_falls(edges);
    }
    Ok(())
}

// Whether an entry is below the one before it. It looks at all of them, with no branch, so that the compiler takes several at a time. By index, here and
// below: over `windows`, with `fold` here and `position` below, the proofs did not close.
fn has_fall(edges: &[u32]) -> bool
    requires { 0 < length edges.now }
    ensures { result ≡ is_fault (behind_fault edges.now) }
{
    let mut has_fallen = false;
    for i in 1..edges.len() {
        has_fallen = has_fallen | (edges[i] < edges[i - 1]);
    }
    has_fallen
}

// Refuses the first entry below the one before it.
fn check_falls(edges: &[u32]) -> Result<(), Refusal>
    requires { 0 < length edges.now }
    ensures { fault_of result ≡ behind_fault edges.now }
{
    for entry in 1..edges.len() {
        if edges[entry] < edges[entry - 1] {
            return Err(Refusal::Unsorted { entry });
        }
    }
    Ok(())
}
