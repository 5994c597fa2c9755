// The edges of a finished board's places. Nothing is written before every track is within its limits.
ghost use Rattle.std.specs.Prelude.{◌≡◌, ◌&&◌, ◌+◌, ◌<◌, leb, length};
ghost use Rattle.laws.specs.Put.{onto};
ghost use Rattle.edges.specs.Rule.{most_base, most_edge, bases_in, edges_of, make_call, limits_fault, fine};
ghost use Rattle.edges.specs.Answer.{fault_of, edges_leaves};

use crate::refusal::Refusal;
use kinds::Constraint;

// The edges of the tracks whose places are handed over, base first, and the total. Edges behind it keep what they hold.
pub fn make(places: &[[u32; 2]], edges: &mut [u32]) -> Result<(), Refusal>
    ensures { edges_leaves result edges.new ≡ make_call places.now edges.old }
{
    if edges.len() <= places.len() {
        return Err(Refusal::LentTooShort);
    }
    check_limits(places)?;
    put_edges(places, edges);
    Ok(())
}

// Whether a base is within its limit, and the edge that lies so far behind another one.
pub(crate) fn is_within(edge: u32, base: u32) -> bool
    ensures { result ≡ leb base most_base && leb (edge + base) most_edge }
{
    base <= Constraint::MOST && base <= u32::MAX - edge
}

// Refuses the first track past the limits.
fn check_limits(places: &[[u32; 2]]) -> Result<(), Refusal>
    ensures { fault_of result ≡ limits_fault 0 0 (bases_in places.now) }
{
    let mut edge = 0;
    for (track, place) in places.iter().enumerate() {
        let base = place[0];
        if !is_within(edge, base) {
            return Err(Refusal::OverLimit { track });
        }
        edge += base;
    }
    Ok(())
}

// By index: the library's lemmas over `zip` are of two lists that are read, and here one is written.
fn put_edges(places: &[[u32; 2]], edges: &mut [u32])
    requires { (length places.now < length edges.old) × (limits_fault 0 0 (bases_in places.now) ≡ fine) }
    ensures { edges.new ≡ onto (edges_of (bases_in places.now)) edges.old }
{
    let mut edge = 0;
    for (t, place) in places.iter().enumerate() {
        edges[t] = edge;
        edge += place[0];
    }
    edges[places.len()] = edge;
}
