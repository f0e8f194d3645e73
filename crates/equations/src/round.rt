// The rounds: what each state holds, of so many parts that a goal holds.
ghost use Rattle.std.specs.Prelude.{◌≡◌, [], ◌/◌, ◌<◌};
ghost use Rattle.meaning.specs.Number.{choose};
ghost use Rattle.meaning.specs.Refusal.{bare, WellFormed};
ghost use Rattle.meaning.specs.Within.{all_parts, held};
ghost use Rattle.chain.specs.Given.{with};
ghost use Rattle.equations.specs.Divide.{Divides, Divided};

use crate::flow::flows;
use chain::Chain;
use chain::given::Given;
use chain::set::holds;
use chain::table::at;

// All parts, which a goal holds.
pub const PARTS: u64 = 1073741824;

// What a state gets whose edges carry so much.
fn share(goal: bool, carried: u64, denominator: u64) -> u64
    requires { 0 < denominator }
    ensures { result ≡ choose goal all_parts (carried / denominator) }
{
    if goal { PARTS } else { carried / denominator }
}

// The same of all n states at once.
fn shares(
    n: usize,
    goals: u64,
    denominators: &[u64],
    carried: &[u64; Chain::STATES],
) -> [u64; Chain::STATES]
    requires { Divides n denominators.now }
    ensures { Divided n goals denominators.now carried.now result }
{
    let mut values = [0u64; Chain::STATES];
    for i in 0..n {
        values[i] = share(holds(goals, i), carried[i], at(denominators, i));
    }
    values
}

// What the start holds after so many rounds. A round is made from the one before alone: no state gets what another got in the same round.
pub(crate) fn rounds(g: &Given, steps: u64) -> u64
    requires { WellFormed bare (with g.now [] [] []) }
    ensures { result ≡ held (with g.now [] [] []).chain steps g.now.chain.start }
{
    let n = g.chain.states;
    let goals = g.chain.goals;
    let none = [0u64; Chain::STATES];
    let mut values = shares(n, goals, g.denominators, &none);
    for _ in 0..steps {
        let carried = flows(g.edges, &values);
        values = shares(n, goals, g.denominators, &carried);
    }
    values[g.chain.start]
}
