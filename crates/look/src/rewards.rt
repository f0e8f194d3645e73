// 11: the rewards of states, then those of edges.
ghost use Rattle.std.specs.Prelude.{◌≡◌};
ghost use Rattle.look.specs.Least.{least, lesser};
ghost use Rattle.meaning.specs.Refusal.{StateRewardFault, EdgeRewardFault, RewardFault};

use chain::table::at;
use chain::{Chain, edge};

fn of_states(n: usize, rewards: &[u64]) -> Option<usize>
    ensures { least (StateRewardFault n rewards.now) result }
{
    (0..n).find(|i| Chain::REWARD < at(rewards, *i))
}

fn of_edges(edges: &[u64]) -> Option<usize>
    ensures { least (EdgeRewardFault edges.now) result }
{
    (0..edge::count(edges)).find(|e| Chain::REWARD < edge::reward(edges, *e))
}

// The lesser of two places.
fn lesser(a: Option<usize>, b: Option<usize>) -> Option<usize>
    ensures { result ≡ lesser a b }
{
    match (a, b) {
        (Some(p), Some(q)) => Some(p.min(q)),
        _ => a.or(b),
    }
}

// The first place of a reward, of one of n states or of an edge, that is too large.
pub fn too_large(n: usize, rewards: &[u64], edges: &[u64]) -> Option<usize>
    ensures { least (RewardFault n rewards.now edges.now) result }
{
    lesser(
        of_states(n, rewards),
        of_edges(edges).map(|e| Chain::STATES + e),
    )
}
