// An engine on what it is lent: each function does its own looking, and eliminates or refuses.
ghost use Rattle.std.specs.Prelude.{◌≡◌, true, false, []};
ghost use Rattle.meaning.specs.Refusal.{with_list, listing};
ghost use Rattle.meaning.specs.Outcome.{cleared};
ghost use Rattle.chain.specs.Given.{with};
ghost use Rattle.survey.specs.Sets.{sets_of, Known};
ghost use Rattle.survey.specs.Looking.{looked};
ghost use Rattle.elimination.specs.Engine.{rounds, is_paid, is_short, asks, read_by};
ghost use Rattle.elimination.specs.Table.{Blank, Kept};
ghost use Rattle.elimination.specs.Log.{Logged};
ghost use Rattle.elimination.specs.Run.{Begun};
ghost use Rattle.elimination.specs.Entered.{Comes, Entered};
ghost use Rattle.elimination.specs.Own.{ours, Found};

use crate::course::{Ends, Noted};
use crate::engine::{Elimination, Engine};
use crate::run::run;
use crate::work::clear_work;
use chain::Chain;
use chain::given::Given;
use chain::refusal::Refusal;
use survey::Sets;
use survey::looking::{look, look_paid};

// The looking of an engine that is lent no step list.
fn look_for(
    engine: Engine,
    g: &Given,
    order: &[u64],
    rewards: &[u64],
    work: &[u64],
) -> Result<Sets, Refusal>
    ensures { let e = read_by (is_paid engine) rewards.now in
        looked (asks engine) (with g.now order.now e work.now) result }
{
    if engine.paid() {
        return look_paid(g, order, rewards, work);
    }
    look(g, order, work, None, engine.short())
}

// Whether an expected reward is infinite, since the goals may be missed.
fn endless(paid: bool, sets: Sets) -> bool
    ensures { (result ≡ true → (paid ≡ true) × (sets.missed ≡ true)) × (result ≡ false → paid ≡ true → sets.missed ≡ false) }
{
    paid && sets.missed
}

// What an engine comes to on a chain that was looked at, in a table of zeros, whose rows it leaves as they come.
fn course(
    engine: Engine,
    g: &Given,
    sets: Sets,
    order: &[u64],
    rewards: &[u64],
    work: &mut [u64],
    log: &mut [u64],
) -> Result<Ends, Refusal>
    requires { let e = read_by (is_paid engine) rewards.now in
        let l = with g.now order.now e work.old in
        Begun (rounds engine) (is_paid engine) (is_short engine) l (sets_of sets) × Known (is_short engine) l.chain sets
        × Logged log.old [] × Blank l.chain.states work.old }
    ensures { let e = read_by (is_paid engine) rewards.now in
        let l = with g.now order.now e work.old in
        Kept l.chain.states work.old work.new × Comes engine l (sets_of sets) log.new result }
{
    if endless(engine.paid(), sets) {
        return Ok(Ends {
            goal: 0,
            unknown: 0,
            reward: 1,
            outside: 0,
        });
    }
    let e = Elimination {
        given: *g,
        sets,
        engine,
    };
    run(&e, order, rewards, work, log)
}

// The same in a lent table, which may hold anything before it and is zero after it.
fn in_lent(
    engine: Engine,
    g: &Given,
    sets: Sets,
    order: &[u64],
    rewards: &[u64],
    work: &mut [u64],
    log: &mut [u64],
) -> Result<Ends, Refusal>
    requires { let e = read_by (is_paid engine) rewards.now in
        let l = with g.now order.now e work.old in
        Begun (rounds engine) (is_paid engine) (is_short engine) l (sets_of sets) × Known (is_short engine) l.chain sets × Logged log.old [] }
    ensures { let e = read_by (is_paid engine) rewards.now in
        let l = with g.now order.now e work.old in
        (work.new ≡ cleared l) × Comes engine l (sets_of sets) log.new result }
{
    let n = g.chain.states;
    clear_work(work, n);
    let r = course(engine, g, sets, order, rewards, work, log);
    clear_work(work, g.chain.states);
    r
}

// An engine in a lent work table: it looks, makes the table zero, eliminates, and makes it zero again. Rewards are read by the reward engine alone.
pub fn with_lent(
    engine: Engine,
    g: &Given,
    order: &[u64],
    rewards: &[u64],
    work: &mut [u64],
) -> Result<Ends, Refusal>
    ensures { let e = read_by (is_paid engine) rewards.now in
        let l = with g.now order.now e work.old in
        Entered (asks engine) engine l work.new [] result }
{
    let sets = look_for(engine, g, order, rewards, work)?;
    let mut none = [0u64; 0];
    in_lent(engine, g, sets, order, rewards, work, &mut none)
}

// The same in a work table of its own, which is made zero once and then thrown away.
pub fn with_own(engine: Engine, g: &Given, order: &[u64], rewards: &[u64]) -> Result<Ends, Refusal>
    ensures { let e = read_by (is_paid engine) rewards.now in
        let l = ours g.now.chain g.now.denominators.now g.now.edges.now order.now e in
        Found (λ r w. Entered (asks engine) engine l w [] r) result }
{
    let mut work = [0u64; Chain::WORK];
    let sets = look_for(engine, g, order, rewards, &work)?;
    let mut none = [0u64; 0];
    course(engine, g, sets, order, rewards, &mut work, &mut none)
}

// The chance engine in a lent work table, with a step list of so many records, which is noted in a log of zeros.
fn noted(
    g: &Given,
    order: &[u64],
    work: &mut [u64],
    list: usize,
    log: &mut [u64],
) -> Result<Ends, Refusal>
    requires { Logged log.old [] }
    ensures { let l = with_list list (with g.now order.now [] work.old) in
        Entered listing Engine.Chance l work.new log.new result }
{
    let sets = look(g, order, work, Some(list), false)?;
    let none = [0u64; 0];
    in_lent(Engine::Chance, g, sets, order, &none, work, log)
}

// The same with the step list by value, for a caller who has room for so many records.
pub fn with_steps(g: &Given, order: &[u64], work: &mut [u64], list: usize) -> Noted
    ensures { let l = with_list list (with g.now order.now [] work.old) in
        Entered listing Engine.Chance l work.new result.numbers result.course }
{
    let mut numbers = [0u64; Noted::NUMBERS];
    let course = noted(g, order, work, list, &mut numbers);
    Noted { course, numbers }
}
