// The track that holds a dot: the list is checked once, then narrowed by halves.
ghost use Rattle.std.specs.Prelude.{◌≡◌, cond, leb};
ghost use Rattle.edges.specs.Rule.{edges_fault, fine, lookup_call};
ghost use Rattle.edges.specs.Answer.{lookup_told};
ghost use Rattle.edges.specs.Steps.{LastUpTo};

use crate::checking::check;
use crate::refusal::Refusal;

// The track that holds the dot, or none where the dot is at the total or past it; 15 is the only refusal.
pub fn lookup(edges: &[u32], dot: u32) -> Result<Option<usize>, Refusal>
    ensures { lookup_told result ≡ lookup_call edges.now dot }
{
    check(edges)?;
    let last = narrow(edges, dot);
    Ok((last < edges.len() - 1).then_some(last))
}

// The last entry that is not past the dot. `at` is one such, and none from `at + count` on is. The loop halves `count`, so it counts no index; the
// library's `partition_point`, compiled, branches at each half, which `farther` does not.
fn narrow(edges: &[u32], dot: u32) -> usize
    requires { edges_fault edges.now ≡ fine }
    ensures { LastUpTo edges.now dot result }
{
    let mut at = 0;
    let mut count = edges.len();
    while count > 1 {
        let half = count / 2;
        let middle = at + half;
        at = farther(at, middle, edges[middle], dot);
        count -= half;
    }
    at
}

// The middle where its edge is not past the dot, else the place before it.
fn farther(at: usize, middle: usize, edge: u32, dot: u32) -> usize
    ensures { result ≡ cond (leb edge dot) middle at }
{
    if edge <= dot { middle } else { at }
}
