ghost use Rattle.std.specs.Prelude.{ℕ};
ghost use Rattle.look.specs.Least.{least};
ghost use Rattle.meaning.specs.Number.{decides};
ghost use Rattle.meaning.specs.Chain.{most_states};
ghost use Rattle.meaning.specs.Refusal.{Same, EndFault, PairFault};

use chain::{Chain, edge};

fn same_ends(edges: &[u64], d: usize, e: usize) -> bool
    ensures { decides (Same edges.now d e) result }
{
    edge::from(edges, d) == edge::from(edges, e) && edge::to(edges, d) == edge::to(edges, e)
}

// The first edge whose pair stood earlier: the nested scan that the scope names, left from the inner loop at the first repeat.
fn first_repeat(edges: &[u64]) -> Option<usize>
    ensures { least (PairFault edges.now) result }
{
    let mut first = None;
    'later: for e in 0..edge::count(edges) {
        'earlier: for d in 0..e {
            if same_ends(edges, d, e) {
                first = Some(e);
                break 'later;
            }
        }
    }
    first
}

// Whether each edge leads to a state that was not yet seen from its source. Then no pair stood earlier.
fn distinct(edges: &[u64]) -> bool
    requires { (e : ℕ) → EndFault most_states edges.now e → ⊥ }
    ensures { decides ((e : ℕ) → PairFault edges.now e → ⊥) result }
{
    let mut seen = [0u64; Chain::STATES];
    for e in 0..edge::count(edges) {
        let i = edge::from(edges, e) as usize;
        let j = edge::to(edges, e);
        let targets = seen[i];
        if (targets >> j) % 2 == 1 {
            return false;
        }
        seen[i] = targets | (1 << j);
    }
    true
}

// Where the first edge is whose pair stood earlier. One pass tells that there is none; only else is each edge compared with all before it.
pub(crate) fn repeated(edges: &[u64]) -> Option<usize>
    requires { (e : ℕ) → EndFault most_states edges.now e → ⊥ }
    ensures { least (PairFault edges.now) result }
{
    if distinct(edges) {
        return None;
    }
    first_repeat(edges)
}
