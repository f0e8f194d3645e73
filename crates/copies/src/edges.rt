// The edges of a plan's chain, kind by kind. Each function answers the place after what it wrote.
ghost use Rattle.std.specs.Prelude.{◌+◌, ◌*◌, ◌-◌, ◌≤◌, length};
ghost use Rattle.meaning.specs.Chain.{edge_size, plain_edge};
ghost use Rattle.meaning.specs.Copies.{most_copies, most_weight, plan_of, Sensible, each, losses, finishes, copies_edges};
ghost use Rattle.copies.specs.Grown.{Grown};
ghost use Rattle.copies.specs.Told.{told_plan};

use crate::list;
use crate::plan::{COPIES, Plan};
use egorstream::EDGE_SIZE;

// The numbers of the longest list: a loss and a finish for each number of copies, a rebuild for each but the last, and two loops.
pub(crate) const MOST: usize = EDGE_SIZE * (3 * COPIES as usize + 1);

// One edge, with no reward.
fn put(edges: &mut [u64], at: usize, from: u64, to: u64, weight: u64) -> usize
    requires { at + edge_size ≤ length edges.old }
    ensures { Grown edges.old at (plain_edge from to weight) edges.new result }
{
    let second = list::add(edges, at, from);
    let third = list::add(edges, second, to);
    let fourth = list::add(edges, third, weight);
    list::add(edges, fourth, 0)
}

// With k copies left, loss counts k times.
fn losses(edges: &mut [u64], at: usize, copies: u64, loss: u64) -> usize
    requires { (copies ≤ most_copies) × (loss ≤ most_weight) × (at + edge_size * copies ≤ length edges.old) }
    ensures { Grown edges.old at (losses (plan_of copies loss 0 0)) edges.new result }
{
    let mut next = at;
    for i in 0..copies {
        let k = i + 1;
        next = put(edges, next, k, k - 1, k * loss);
    }
    next
}

// A rebuild adds one, from 1 to the most.
fn rebuilds(edges: &mut [u64], at: usize, most: u64, rebuild: u64) -> usize
    requires { (most ≤ most_copies) × (at + edge_size * most ≤ length edges.old) }
    ensures { Grown edges.old at (each (λ k. plain_edge k (k + 1) rebuild) most) edges.new result }
{
    let mut next = at;
    for i in 0..most {
        let k = i + 1;
        next = put(edges, next, k, k + 1, rebuild);
    }
    next
}

// The finish ends the job well, whatever is left.
fn finishes(edges: &mut [u64], at: usize, copies: u64, finish: u64) -> usize
    requires { (copies ≤ most_copies) × (at + edge_size * copies ≤ length edges.old) }
    ensures { Grown edges.old at (finishes (plan_of copies 0 0 finish)) edges.new result }
{
    let mut next = at;
    for i in 0..copies {
        let k = i + 1;
        next = put(edges, next, k, copies + 1, finish);
    }
    next
}

// All of them, and the loops of no copy left and of the finished job.
pub(crate) fn edges(table: &mut [u64], plan: Plan) -> usize
    requires { Sensible (told_plan plan) × (edge_size * (3 * most_copies + 1) ≤ length table.old) }
    ensures { Grown table.old 0 (copies_edges (told_plan plan)) table.new result }
{
    let copies = plan.copies;
    let finished = copies + 1;
    let second = losses(table, 0, copies, plan.loss);
    let third = rebuilds(table, second, copies - 1, plan.rebuild);
    let fourth = finishes(table, third, copies, plan.finish);
    let last = put(table, fourth, 0, 0, 1);
    put(table, last, finished, finished, 1)
}
