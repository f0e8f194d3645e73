// The outset of an elimination that takes the rows as the chain gives them: the looking, and then the rows in the work table, by columns.
ghost use Rattle.std.specs.Prelude.{[]};
ghost use Rattle.chain.specs.Given.{with};
ghost use Rattle.elimination.specs.Laying.{laid};

use crate::gather::gather;
use crate::work::clear_work;
use chain::given::Given;
use chain::refusal::Refusal;
use survey::Sets;
use survey::looking::look;

// Lays the rows of a chain out in a lent work table: the weights to each state, to goals and to states with no path to one. Answers the chain's sets;
// a refusal leaves the work table.
pub fn lay(g: &Given, order: &[u64], work: &mut [u64]) -> Result<Sets, Refusal>
    ensures { let l = with g.now order.now [] work.old in
        laid l work.new result }
{
    let sets = look(g, order, work, None, false)?;
    let n = g.chain.states;
    clear_work(work, n);
    gather(work, n, sets, g.edges);
    Ok(sets)
}
