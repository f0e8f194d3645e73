// The lines of a chain text, each read by itself.
ghost use Rattle.std.specs.Prelude.{◌≤◌, ◌<◌, length};
ghost use Rattle.chaintext.specs.Lines.{EdgeRead, CountRead, RestRead, StateRead, OrderRead};

use crate::pieces::{MOST, named, word};

// The numbers of a line that is the line of an edge.
#[derive(Clone, Copy)]
pub(crate) struct EdgeLine {
    pub from: u64,
    pub to: u64,
    pub weight: u64,
    pub reward: u64,
}

pub(crate) fn edge(line: &[u8]) -> Option<EdgeLine>
    ensures { EdgeRead line.now result }
{
    let (from, second) = named(line, 0, b"edge ", 255)?;
    let (to, third) = named(line, second, b" ", 255)?;
    let (weight, fourth) = named(line, third, b" weight ", MOST)?;
    let (reward, end) = named(line, fourth, b" reward ", 65535)?;
    if end < line.len() {
        return None;
    }
    Some(EdgeLine {
        from,
        to,
        weight,
        reward,
    })
}

// The number of a line that has one after its name.
pub(crate) fn count(line: &[u8], name: &[u8], least: u64, limit: u64) -> Option<u64>
    requires { limit ≤ 4294967295 }
    ensures { CountRead line.now name.now least limit result }
{
    let (value, next) = named(line, 0, name, limit)?;
    if next < line.len() || value < least {
        return None;
    }
    Some(value)
}

// Whether ` goal` stands after a state's numbers, where nothing else does.
fn rest_of(line: &[u8], at: usize) -> Option<bool>
    requires { at ≤ length line.now }
    ensures { RestRead line.now at result }
{
    if line.len() <= at {
        return Some(false);
    }
    if word(line, at, b" goal")? < line.len() {
        return None;
    }
    Some(true)
}

// The numbers of a line that is the line of a state.
#[derive(Clone, Copy)]
pub(crate) struct StateLine {
    pub denominator: u64,
    pub reward: u64,
    pub goal: bool,
}

pub(crate) fn state(line: &[u8], i: u64) -> Option<StateLine>
    requires { i < 64 }
    ensures { StateRead line.now i result }
{
    let (state, second) = named(line, 0, b"state ", 63)?;
    if state != i {
        return None;
    }
    let (denominator, third) = named(line, second, b" denominator ", MOST)?;
    let (reward, end) = named(line, third, b" reward ", 65535)?;
    let goal = rest_of(line, end)?;
    Some(StateLine {
        denominator,
        reward,
        goal,
    })
}

// The order's numbers go into its table, where the line is the line of so many.
pub(crate) fn order(line: &[u8], n: usize, order: &mut [u64]) -> Option<()>
    requires { n ≤ length order.old }
    ensures { OrderRead line.now n order.old order.new result }
{
    let mut at = word(line, 0, b"order")?;
    for p in 0..n {
        let (value, next) = named(line, at, b" ", 255)?;
        order[p] = value;
        at = next;
    }
    if at < line.len() {
        return None;
    }
    Some(())
}
