// What a plan's chain has for each state: its denominator, and its place in the order.
ghost use Rattle.std.specs.Prelude.{◌+◌, ◌≤◌, ◌<◌, ◌≡◌, length};
ghost use Rattle.meaning.specs.Number.{tab_from};
ghost use Rattle.meaning.specs.Chain.{row_sum};
ghost use Rattle.meaning.specs.Copies.{Sensible, copies_edges};
ghost use Rattle.copies.specs.Grown.{Grown};
ghost use Rattle.copies.specs.Told.{told_plan};

use crate::list;
use crate::plan::{COPIES, Plan};

// The states of the largest plan's chain: 0 to the finished job.
pub(crate) const MOST: usize = COPIES as usize + 2;

// The row sum of state k. No copy left and the finished job loop; with all copies there is nothing to rebuild.
fn sum(plan: Plan, k: u64) -> u64
    requires { Sensible (told_plan plan) × (k < plan.copies + 2) }
    ensures { result ≡ row_sum (copies_edges (told_plan plan)) k }
{
    if k == 0 {
        return 1;
    }
    if plan.copies < k {
        return 1;
    }
    if k == plan.copies {
        return k * plan.loss + plan.finish;
    }
    k * plan.loss + plan.rebuild + plan.finish
}

// The first numbers of the table are the row sums.
pub(crate) fn denominators(table: &mut [u64], plan: Plan)
    requires { Sensible (told_plan plan) × (plan.copies + 2 ≤ length table.old) }
    ensures { let sums = row_sum (copies_edges (told_plan plan)) in
        Grown table.old 0 (tab_from 0 (plan.copies + 2) sums) table.new (plan.copies + 2) }
{
    for k in 0..plan.copies + 2 {
        list::add(table, k as usize, sum(plan, k));
    }
}

// They are 0, 1, 2, ..
pub(crate) fn rising(table: &mut [u64], states: usize)
    requires { states ≤ length table.old }
    ensures { Grown table.old 0 (tab_from 0 states (λ i. i)) table.new states }
{
    for k in 0..states {
        list::add(table, k, k as u64);
    }
}
