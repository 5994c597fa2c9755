// Edges brought up to date where one base changes: those behind the track move by what it grew or shrank.
ghost use Rattle.std.specs.Prelude.{◌≡◌};
ghost use Rattle.edges.specs.Rule.{update_call};
ghost use Rattle.edges.specs.Answer.{edges_leaves};
ghost use Rattle.edges.specs.Steps.{moved_from, CanMove};

use crate::checking::check;
use crate::making::is_within;
use crate::refusal::Refusal;

// Track `track` has a new base. The edges up to its own stay, and nothing is written before every refusal is ruled out.
pub fn update(edges: &mut [u32], track: usize, base: u32) -> Result<(), Refusal>
    ensures { edges_leaves result edges.new ≡ update_call edges.old track base }
{
    check(edges)?;
    let last = edges.len() - 1;
    if track >= last {
        return Err(Refusal::TrackMissing { track });
    }
    let old = edges[track + 1] - edges[track];
    if !is_within(edges[last] - old, base) {
        return Err(Refusal::OverLimit { track });
    }
    move_from(track + 1, old, base, edges);
    Ok(())
}

// Each edge from a place on is so far behind as it was, less the old base, and the new one more.
fn move_from(from: usize, old: u32, base: u32, edges: &mut [u32])
    requires { CanMove from old base edges.old }
    ensures { edges.new ≡ moved_from from old base edges.old }
{
    for edge in edges[from..].iter_mut() {
        *edge = *edge - old + base;
    }
}
