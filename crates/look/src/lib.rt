// The numbers of refusal that need no work table: 1, 3 to 9, 10 and 11. The least that applies is given, at its least place.
#![tactic(auto)]

ghost use Rattle.std.specs.Prelude.{[]};
ghost use Rattle.meaning.specs.Refusal.{bare_of, bare};
ghost use Rattle.chain.specs.Given.{with};
ghost use Rattle.look.specs.Says.{Looks, own, Shaped};

use chain::given::Given;
use chain::refusal::{Fault, Refusal, refuse};

mod pairs;
pub mod rewards;
pub mod scan;
pub mod shape;
pub mod sums;

// The chain's own faults: 3 to 9.
fn own(g: &Given, short: bool) -> Result<(), Refusal>
    requires { Shaped g.now.chain.states g.now.denominators.now g.now.edges.now }
    ensures { own g.now short result }
{
    let n = g.chain.states;
    if n <= g.chain.start {
        return Err(Refusal::from(Fault::Start));
    }
    if shape::goals_wrong(n, g.chain.goals) {
        return Err(Refusal::from(Fault::Goals));
    }
    refuse(Fault::Denominator, scan::denominators(g.denominators))?;
    refuse(Fault::EdgeState, scan::ends(n, g.edges))?;
    refuse(Fault::Weight, scan::weights(g.edges))?;
    refuse(Fault::EdgeGivenBefore, pairs::repeated(g.edges))?;
    refuse(Fault::RowSum, sums::first_wrong(g, short))
}

// The looking of an entry that is lent a chain alone, whose rows may fall short or not: 1 and 3 to 9.
pub fn alone(g: &Given, short: bool) -> Result<(), Refusal>
    ensures { Looks (bare_of short) (with g.now [] [] []) result }
{
    let n = g.chain.states;
    if shape::misshaped(n, g.denominators.len(), g.edges, n, n) {
        return Err(Refusal::from(Fault::Length));
    }
    own(g, short)
}

// The same where no row may fall short.
pub fn bare(g: &Given) -> Result<(), Refusal>
    ensures { Looks bare (with g.now [] [] []) result }
{
    alone(g, false)
}
