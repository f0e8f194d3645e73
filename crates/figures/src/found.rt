// All that a report tells of the chain of an opened file: its counts, and its figures, each with a work table of its own.
ghost use Rattle.std.specs.Prelude.{[]};
ghost use Rattle.meaning.specs.Block.{Input};
ghost use Rattle.chain.specs.Given.{with};
ghost use Rattle.elimination.specs.Own.{ours, Found};
ghost use Rattle.engines.specs.Told.{Rewarded};
ghost use Rattle.opening.specs.Asked.{Shown};
ghost use Rattle.figures.specs.Found.{Counted, ReportAsked};

use crate::answer::{Counts, Report};
use chain::given::Given;
use chain::refusal::Refusal;
use chain::{Chain, edge};
use engines::answer::Reward;
use engines::entry;
use opening::Opened;

fn reward(g: &Given, order: &[u64], rewards: &[u64]) -> Result<Reward, Refusal>
    ensures { let l = ours g.now.chain g.now.denominators.now g.now.edges.now order.now rewards.now in
        Found (Rewarded l) result }
{
    let mut work = [0u64; Chain::WORK];
    entry::reward(g, order, rewards, &mut work)
}

// Of a chain that the survey refuses no goals and no live states are counted.
fn counts(g: &Given) -> Counts
    ensures { Counted (with g.now [] [] []) result }
{
    let (goals, live) = match survey::of(g) {
        Ok(found) => (found.goals, found.live),
        Err(_) => (0, 0),
    };
    Counts {
        states: g.chain.states as u64,
        edges: edge::count(g.edges) as u64,
        goals: u64::from(goals),
        live: u64::from(live),
    }
}

pub(crate) fn report(opened: &Opened) -> Report
    ensures { (f : Input) → Shown f opened.now → ReportAsked f result }
{
    let g = &opened.given;
    let order = opened.order;
    Report {
        counts: counts(g),
        chance: entry::chance_unlent(g, order),
        reward: reward(g, order, opened.rewards),
        bounds: entry::bounds_unlent(g, order),
    }
}
