// A case: each entry is run on a chain with a work table of sevens, of which it is lent a part.
ghost use Rattle.std.specs.Prelude.{◌≤◌};

use crate::tell;
use chain::Chain;
use chain::given::Given;
use engines::entry;
use std::io::Write;

const SPARE: usize = 2;

const WORK: usize = Chain::STATES * Chain::WIDTH + SPARE;

// The numbers of the work table that a chain of n states takes; none where there are too many.
fn used(n: usize) -> usize
    ensures { result ≤ 4352 }
{
    if n > Chain::STATES {
        return 0;
    }
    n * (n + Chain::BESIDE)
}

// Whether the table holds x from one place up to another.
fn holds(table: &[u64; WORK], from: usize, to: usize, x: u64) -> bool
    requires { to ≤ 4354 }
{
    from >= to || table[from..to].iter().all(|y| *y == x)
}

fn tell_work(out: &mut impl Write, table: &[u64; WORK], taken: usize)
    requires { taken ≤ 4352 }
{
    let end = taken + SPARE;
    if holds(table, 0, end, 7) {
        tell::text(out, b", work unchanged\n");
    } else if holds(table, 0, taken, 0) && holds(table, taken, end, 7) {
        tell::text(out, b", work zeroed, rest kept\n");
    } else {
        tell::text(out, b", work wrong\n");
    }
}

// What the entries are lent but for the work table.
#[derive(Clone, Copy)]
pub(crate) struct Lent<'a> {
    pub given: Given<'a>,
    pub order: &'a [u64],
    pub rewards: &'a [u64],
}

#[derive(Clone, Copy)]
enum Entry {
    Chance,
    Reward,
    Bounds,
}

fn line(out: &mut impl Write, name: &[u8], which: Entry, lent: usize, case: &Lent)
    requires { lent ≤ 4354 }
{
    let mut table = [7u64; WORK];
    let work = &mut table[..lent];
    tell::text(out, name);
    match which {
        Entry::Chance => tell::chance(out, entry::chance(&case.given, case.order, work)),
        Entry::Reward => tell::reward(
            out,
            entry::reward(&case.given, case.order, case.rewards, work),
        ),
        Entry::Bounds => tell::bounds(out, entry::bounds(&case.given, case.order, work)),
    }
    tell_work(out, &table, used(case.given.chain.states));
}

// The lines of a case, the entries being lent so many numbers of the work table.
pub(crate) fn lines(out: &mut impl Write, name: &[u8], lent: usize, case: &Lent)
    requires { lent ≤ 4354 }
{
    line(out, name, Entry::Chance, lent, case);
    line(out, name, Entry::Reward, lent, case);
    line(out, name, Entry::Bounds, lent, case);
    tell::text(out, name);
    tell::survey(out, survey::of(&case.given));
}

// The lines of a case whose work table is longer than the chain takes.
pub(crate) fn case(out: &mut impl Write, name: &[u8], case: &Lent) {
    lines(out, name, used(case.given.chain.states) + SPARE, case);
}
