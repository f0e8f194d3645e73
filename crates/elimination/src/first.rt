// The first rows, made from the chain: the weights are gathered by columns, what is missing is Unknown, then each live row is packed and settled.
ghost use Rattle.std.specs.Prelude.{◌≡◌, ℕ, ◌<◌, ◌≤◌, eqb, length};
ghost use Rattle.meaning.specs.Number.{bit};
ghost use Rattle.meaning.specs.Chain.{most_states};
ghost use Rattle.meaning.specs.Row.{cell};
ghost use Rattle.meaning.specs.Refusal.{work_size};
ghost use Rattle.meaning.specs.Step.{first, unknown};
ghost use Rattle.elimination.specs.Packed.{states_of};
ghost use Rattle.elimination.specs.Filled.{targets_to};
ghost use Rattle.elimination.specs.Row.{Became};
ghost use Rattle.elimination.specs.Table.{part_at, Blank, Placed, Renewed};
ghost use Rattle.survey.specs.Sets.{chain_in, sets_of};
ghost use Rattle.elimination.specs.First.{Packable, PackedFrom, finished, finished_divisor, Unfinished, finished_at, Finishable, Makeable};
ghost use Rattle.elimination.specs.Engine.{rounds, is_paid, is_short};
ghost use Rattle.elimination.specs.Pay.{pays};
ghost use Rattle.elimination.specs.Turn.{Made};

use crate::engine::Elimination;
use crate::gather::{TRAP_BEHIND, UNKNOWN_BEHIND, add_missing, gather};
use crate::merge::{some, weights};
use crate::part::{GOAL, REWARD, TRAP, UNKNOWN, load};
use crate::pay::earnings;
use crate::row::settle;
use crate::work::{clear, row_start};
use chain::Chain;
use chain::set::holds;
use chain::table::at;

// The set of the columns that hold a weight, from the last one down, so that no column's bit has to be shifted there.
fn occupied(columns: &[u64]) -> u64
    requires { length columns.now ≤ most_states }
    ensures { let c = columns.now in result ≡ targets_to (cell c) (length c) }
{
    let mut targets = 0;
    for j in (0..columns.len()).rev() {
        targets = targets * 2 + some(columns[j]) as u64;
    }
    targets
}

// Packs a row that was gathered by columns in its own part, with what it earns. Its weights are to states of some set, for which there is room.
fn pack(part: &mut [u64], earns: u64)
    requires { (live : ℕ) × Packable live part.old }
    ensures { PackedFrom earns part.old part.new }
{
    let n = part.len() - Chain::BESIDE;
    let all = occupied(&part[..n]);
    let x = load(&part[..n]);
    let goal = part[n];
    let trap = part[n + TRAP_BEHIND];
    let unknown = part[n + UNKNOWN_BEHIND];
    clear(part);
    part[REWARD] = earns;
    part[GOAL] = goal;
    part[TRAP] = trap;
    part[UNKNOWN] = unknown;
    let none = [0u64; Chain::WIDTH];
    let t = weights(part, all, &x, &none, Chain::WIDTH, 1, 0);
    part[0] = t;
}

// Packs the gathered row of a live state with what it earns, and settles that. Nothing was gathered for another state.
fn finish(part: &mut [u64], alive: bool, earns: u64, rounding: bool) -> Option<u64>
    requires { (live : ℕ) × Unfinished rounding (states_of part.old) alive live earns part.old }
    ensures { let z = part.old in
        let n = states_of z in
        Became rounding n (finished rounding n alive earns z) (finished_divisor n alive earns z) part.new result }
{
    if !alive {
        return Some(1);
    }
    pack(part, earns);
    settle(part, rounding)
}

// Finishes row i of the table. The rest of the work table is as it was.
fn finish_row(
    work: &mut [u64],
    i: usize,
    n: usize,
    live: u64,
    earns: u64,
    rounding: bool,
) -> Option<u64>
    requires { let w = work.old in
        (work_size n ≤ length w) × (n ≤ most_states) × (i < n) × Unfinished rounding n (eqb (bit live i) 1) live earns (part_at n w i) }
    ensures { let w = work.old in
        let z = part_at n w i in
        let alive = eqb (bit live i) 1 in
        Placed rounding n w i (finished rounding n alive earns z) (finished_divisor n alive earns z) work.new result }
{
    let a = row_start(n, i);
    let e = a + n + Chain::BESIDE;
    finish(&mut work[a..e], holds(live, i), earns, rounding)
}

// Finishes each row with what its state earns, up to the first that does not fit. No record is of a first row, so the divisors end here.
fn finish_all(work: &mut [u64], n: usize, live: u64, pay: &[u64], rounding: bool) -> Option<()>
    requires { Finishable rounding n live pay.now work.old }
    ensures { let w = work.old in
        Renewed rounding (finished_at rounding n live pay.now w) n w work.new result }
{
    for i in 0..n {
        finish_row(work, i, n, live, at(pay, i), rounding)?;
    }
    Some(())
}

// Makes the first rows, in a table of zeros; nothing where one does not fit.
pub(crate) fn first_rows(work: &mut [u64], e: &Elimination, rewards: &[u64]) -> Option<()>
    requires { let g = e.now.engine in
        Makeable (rounds g) (is_paid g) (is_short g) (chain_in e.now.given) (sets_of e.now.sets) rewards.now work.old
        × Blank e.now.given.chain.states work.old }
    ensures { let g = e.now.engine in
        let c = chain_in e.now.given in
        let t = first (rounds g) c (sets_of e.now.sets) (pays (is_paid g) c rewards.now) (unknown (is_short g) c) in
        Made (rounds g) c.states t work.old work.new result }
{
    let g = e.given;
    let n = g.chain.states;
    let pay = earnings(e.engine.paid(), n, g.denominators, g.edges, rewards);
    gather(work, n, e.sets, g.edges);
    add_missing(work, e);
    finish_all(work, n, e.sets.live, &pay, e.engine.rounding())
}
