// Faults of the whole.
ghost use Rattle.std.specs.Prelude.{◌≤◌, length};
ghost use Rattle.meaning.specs.Number.{decides};
ghost use Rattle.meaning.specs.Chain.{most_states};
ghost use Rattle.meaning.specs.Refusal.{paid, Misshaped, GoalFault};

use chain::{Chain, edge};

// The number of states or the length of a table is wrong. For a table that is not lent the caller gives n.
pub fn misshaped(n: usize, denominators: usize, edges: &[u64], order: usize, rewards: usize) -> bool
    ensures { decides (Misshaped paid n denominators (length edges.now) order rewards) result }
{
    n == 0
        || Chain::STATES < n
        || denominators != n
        || edge::ragged(edges)
        || Chain::EDGES < edge::count(edges)
        || order != n
        || rewards != n
}

// The goal set is empty, or has a goal past the states: at the most states it has no room for one.
pub(crate) fn goals_wrong(n: usize, goals: u64) -> bool
    requires { n ≤ most_states }
    ensures { decides (GoalFault n goals) result }
{
    goals == 0 || (n < Chain::STATES && 0 < goals >> n)
}
