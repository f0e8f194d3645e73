// The entries: each is an engine by its name, which does its own looking, and what is read off its course.
ghost use Rattle.std.specs.Prelude.{◌≡◌, []};
ghost use Rattle.meaning.specs.Outcome.{ChanceOutcome, BoundsOutcome};
ghost use Rattle.meaning.specs.Refusal.{with_list};
ghost use Rattle.meaning.specs.Left.{LeftOutcome};
ghost use Rattle.chain.specs.Given.{with};
ghost use Rattle.elimination.specs.Own.{ours, Found};
ghost use Rattle.engines.specs.Answer.{told_chance, told_bounds};
ghost use Rattle.engines.specs.ReadOff.{chance_of, reward_of, Summed, bounds_of};
ghost use Rattle.engines.specs.Trace.{Traced};
ghost use Rattle.engines.specs.Told.{Rewarded};

use crate::answer::{Bounds, Reward, Trace};
use chain::fraction::Fraction;
use chain::given::Given;
use chain::refusal::Refusal;
use elimination::course::Ends;
use elimination::engine::Engine;
use elimination::entry::{with_lent, with_own, with_steps};

// The chance that is read off.
fn chance_of(course: Result<Ends, Refusal>) -> Result<Fraction, Refusal>
    ensures { result ≡ chance_of course }
{
    let ends = course?;
    Ok(Fraction::new(ends.goal, ends.outside).reduce())
}

// The expected reward that is read off: 1 over 0 where it is infinite.
fn reward_of(course: Result<Ends, Refusal>) -> Result<Reward, Refusal>
    ensures { result ≡ reward_of course }
{
    let ends = course?;
    if ends.outside == 0 {
        return Ok(Reward::Infinite);
    }
    Ok(Reward::Is(Fraction::new(ends.reward, ends.outside).reduce()))
}

// The bounds that are read off.
fn bounds_of(course: Result<Ends, Refusal>) -> Result<Bounds, Refusal>
    requires { Summed course }
    ensures { result ≡ bounds_of course }
{
    let ends = course?;
    Ok(Bounds {
        lower: Fraction::new(ends.goal, ends.outside).reduce(),
        upper: Fraction::new(ends.goal + ends.unknown, ends.outside).reduce(),
    })
}

// The chance of reaching a goal, in lowest terms.
pub fn chance(g: &Given, order: &[u64], work: &mut [u64]) -> Result<Fraction, Refusal>
    ensures { let l = with g.now order.now [] work.old in
        ChanceOutcome l (told_chance result) work.new }
{
    let none = [0u64; 0];
    let course = with_lent(Engine::Chance, g, order, &none, work);
    chance_of(course)
}

// The same with a work table of its own, which is made zero once and then thrown away.
pub fn chance_unlent(g: &Given, order: &[u64]) -> Result<Fraction, Refusal>
    ensures { let l = ours g.now.chain g.now.denominators.now g.now.edges.now order.now [] in
        Found (ChanceOutcome l) (told_chance result) }
{
    let none = [0u64; 0];
    let course = with_own(Engine::Chance, g, order, &none);
    chance_of(course)
}

// The chance with a step list by value, for a caller who has room for so many records.
pub fn trace(g: &Given, order: &[u64], work: &mut [u64], list: usize) -> Trace
    ensures { let l = with g.now order.now [] work.old in
        Traced (with_list list l) result work.new }
{
    let noted = with_steps(g, order, work, list);
    let numbers = noted.numbers;
    Trace {
        chance: chance_of(noted.course),
        numbers,
    }
}

// The expected reward, in lowest terms, or that it is infinite.
pub fn reward(
    g: &Given,
    order: &[u64],
    rewards: &[u64],
    work: &mut [u64],
) -> Result<Reward, Refusal>
    ensures { let l = with g.now order.now rewards.now work.old in
        Rewarded l result work.new }
{
    let course = with_lent(Engine::Reward, g, order, rewards, work);
    reward_of(course)
}

// Two fractions with the chance between them, each in lowest terms.
pub fn bounds(g: &Given, order: &[u64], work: &mut [u64]) -> Result<Bounds, Refusal>
    ensures { let l = with g.now order.now [] work.old in
        BoundsOutcome l (told_bounds result) work.new }
{
    let none = [0u64; 0];
    let course = with_lent(Engine::Bounds, g, order, &none, work);
    bounds_of(course)
}

// The same with a work table of its own, which is made zero once and then thrown away.
pub fn bounds_unlent(g: &Given, order: &[u64]) -> Result<Bounds, Refusal>
    ensures { let l = ours g.now.chain g.now.denominators.now g.now.edges.now order.now [] in
        Found (BoundsOutcome l) (told_bounds result) }
{
    let none = [0u64; 0];
    let course = with_own(Engine::Bounds, g, order, &none);
    bounds_of(course)
}

// The bounds of a chain where edges are lost: rows may fall short, and their missing weight goes to Unknown.
pub fn bounds_left(g: &Given, order: &[u64], work: &mut [u64]) -> Result<Bounds, Refusal>
    ensures { let l = with g.now order.now [] work.old in
        LeftOutcome l (told_bounds result) work.new }
{
    let none = [0u64; 0];
    let course = with_lent(Engine::Left, g, order, &none, work);
    bounds_of(course)
}
