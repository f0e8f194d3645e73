// The entry: it does its own looking, and answers or refuses.
ghost use Rattle.std.specs.Prelude.{◌≡◌, ℕ, ◌+◌, ◌<◌, ◌≤◌, List, [], length};
ghost use Rattle.meaning.specs.Chain.{most_states};
ghost use Rattle.meaning.specs.Refusal.{work_size};
ghost use Rattle.meaning.specs.Near.{NearFigure, NearOutcome};
ghost use Rattle.meaning.specs.Miss.{MissFigure, MissOutcome};
ghost use Rattle.chain.specs.Given.{with};
ghost use Rattle.chain.specs.Lent.{lent};
ghost use Rattle.elimination.specs.Own.{ours, Found};
ghost use Rattle.elimination.specs.Table.{part_at, Kept};
ghost use Rattle.near.specs.Word.{value};
ghost use Rattle.near.specs.Row.{value_at};
ghost use Rattle.near.specs.Step.{outside_at};
ghost use Rattle.near.specs.Answer.{Answers, Misses, told_between, told_near, told_miss, known_as};
ghost use Rattle.near.specs.Entry.{Readable, Begun};

use crate::answer::{Between, Figures, bounds, missing};
use crate::row::total;
use crate::step::pivot_of;
use crate::walk::eliminate;
use crate::wide::Gap;
use chain::Chain;
use chain::given::Given;
use chain::refusal::Refusal;
use chain::set::holds;
use elimination::laying::lay;
use elimination::work::clear_work;
use survey::Sets;

// What is read off the start's row at the end: Goal and Trap over its D.
fn read_off(work: &[u64], n: usize, start: usize, rows: u64) -> Figures
    requires { Readable n start rows work.now }
    ensures { let w = work.now in
        let z = part_at n w start in
        let d = value (outside_at n start w) in
        Answers (value_at z n) d rows result.chance × Misses (value_at z (n + 1)) d rows result.miss }
{
    let p = pivot_of(work, n, start);
    let m = n + Chain::BESIDE;
    let d = total(&p[..m], Gap::NONE);
    let chance = bounds(p[n], d, rows);
    let miss = missing(p[n + 1], d, rows);
    Figures { chance, miss }
}

// What is known where no row is made: each chance is 0 or 1.
fn known(goal: u64, miss: u64) -> Figures
    ensures { result ≡ known_as goal miss }
{
    Figures {
        chance: Between::exactly(goal),
        miss: Between::exactly(miss),
    }
}

// The elimination of the rows that are laid out in the work table. The table is not cleared.
fn follow(c: Chain, sets: Sets, order: &[u64], work: &mut [u64]) -> Figures
    requires { (d : List ℕ) × ((e : List ℕ) × Begun c sets d e order.now work.old) }
    ensures { let o = order.now in
        let w = work.old in
        Kept c.states w work.new
        × ((d e : List ℕ) → Begun c sets d e o w
        → NearFigure (lent c d e o [] w) (told_between result.chance) × MissFigure (lent c d e o [] w) (told_between result.miss)) }
{
    if holds(c.goals, c.start) {
        return known(1, 0);
    }
    if !holds(sets.good, c.start) {
        return known(0, 1);
    }
    let rows = eliminate(work, c, sets.live, order);
    read_off(work, c.states, c.start, rows)
}

// The chance of reaching a goal, and that of missing every goal, each between two fractions that are near each other in proportion.
pub fn near(g: &Given, order: &[u64], work: &mut [u64]) -> Result<Figures, Refusal>
    ensures { let l = with g.now order.now [] work.old in
        NearOutcome l (told_near result) work.new × MissOutcome l (told_miss result) work.new }
{
    let sets = lay(g, order, work)?;
    let found = follow(g.chain, sets, order, work);
    clear_work(work, g.chain.states);
    Ok(found)
}

// The same with a work table of its own, which is not made zero at the end.
pub fn near_unlent(g: &Given, order: &[u64]) -> Result<Figures, Refusal>
    ensures { let l = ours g.now.chain g.now.denominators.now g.now.edges.now order.now [] in
        Found (NearOutcome l) (told_near result) × Found (MissOutcome l) (told_miss result) }
{
    let mut work = [0u64; Chain::WORK];
    let sets = lay(g, order, &mut work)?;
    Ok(follow(g.chain, sets, order, &mut work))
}
