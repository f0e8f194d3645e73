// A step: one state is removed from the table of words, one row at a time.
ghost use Rattle.std.specs.Prelude.{◌≡◌, ℕ, ◌+◌, ◌*◌, ◌<◌, ◌≤◌, length, replicate, slice_index, slice_set};
ghost use Rattle.meaning.specs.Chain.{most_states};
ghost use Rattle.meaning.specs.Number.{only};
ghost use Rattle.meaning.specs.Row.{width};
ghost use Rattle.meaning.specs.Refusal.{work_size};
ghost use Rattle.elimination.specs.Table.{part_at};
ghost use Rattle.elimination.specs.Gather.{Changed};
ghost use Rattle.near.specs.Row.{settled_words, Parts, joined};
ghost use Rattle.near.specs.Gap.{Within, Empty, Going, Cleared};
ghost use Rattle.near.specs.Step.{leads_to, renewed_words, RenewedOn, RemovedBy, RemovedWords};

use crate::row::{parts, settle, total};
use crate::wide::{Gap, replace};
use chain::Chain;
use elimination::part::load;
use elimination::work::{clear, row_start};

// What is removed: the state s, the D of its row, a copy of the row in its parts, without its weight to itself, and the gap at its turn.
#[derive(Clone, Copy)]
pub(crate) struct Removal<'a> {
    pub(crate) s: usize,
    pub(crate) d: u64,
    pub(crate) pivot: &'a [u64],
    pub(crate) gap: Gap,
}

impl Removal<'_> {
    // Renews a row, which is not that of s. Answers how many rows are made anew, 1 or 0.
    fn renew(&self, part: &mut [u64]) -> u64
        requires shape { let r = self.now in
            (length part.old ≤ 68) × (r.s < length part.old) × Within r.gap (length part.old) × Parts r.pivot.now }
        requires gap_empty { let r = self.now in Empty r.gap (slice_set part.old r.s 0) × Empty r.gap (joined r.pivot.now) }
        ensures { let z = part.old in
            let r = self.now in
            (part.new ≡ renewed_words r.s r.d (joined r.pivot.now) z) × (result ≡ only (leads_to r.s z) 1) × (result ≤ 1) }
    {
        if part[self.s] == 0 {
            return 0;
        }
        replace(part, self);
        1
    }

    // Renews row i of the table. The rest of the work table is as it was.
    fn renew_row(&self, work: &mut [u64], n: usize, i: usize) -> u64
        requires few_states { let r = self.now in
            (n ≤ most_states) × (work_size n ≤ length work.old) × (i < n) × (r.s < n) × Parts r.pivot.now }
        requires within { let r = self.now in
            Within r.gap n × Empty r.gap (slice_set (part_at n work.old i) r.s 0) × Empty r.gap (joined r.pivot.now) }
        ensures { let w = work.old in
            let r = self.now in
            let z = part_at n w i in
            Changed n w i (renewed_words r.s r.d (joined r.pivot.now) z) work.new × (result ≡ only (leads_to r.s z) 1) × (result ≤ 1) }
    {
        let a = row_start(n, i);
        let e = a + n + Chain::BESIDE;
        self.renew(&mut work[a..e])
    }

    // Renews the rows from `from` to before `to`, and answers how many were made anew.
    fn renew_on(&self, work: &mut [u64], n: usize, from: usize, to: usize) -> u64
        requires few_states { let r = self.now in
            (n ≤ most_states) × (work_size n ≤ length work.old) × (r.s < n) × Parts r.pivot.now × (from ≤ to) × (to ≤ n) }
        requires within { let r = self.now in
            Within r.gap n × ((i : ℕ) → from ≤ i → i < to → Empty r.gap (slice_set (part_at n work.old i) r.s 0)) × Empty r.gap (joined r.pivot.now) }
        ensures { let r = self.now in RenewedOn n r.s r.d (joined r.pivot.now) from to work.old work.new result }
    {
        let mut rows = 0;
        for i in from..to {
            rows += self.renew_row(work, n, i);
        }
        rows
    }

    // Renews the rows of the table, and answers how many were made anew. Those of states that are gone have no weight, and stay.
    fn renew_all(&self, work: &mut [u64], n: usize) -> u64
        requires few_states { let r = self.now in
            (n ≤ most_states) × (work_size n ≤ length work.old) × (r.s < n) × Parts r.pivot.now }
        requires cleared { let r = self.now in Cleared n r.s r.gap work.old × Empty r.gap (joined r.pivot.now) }
        ensures { let r = self.now in RenewedOn n r.s r.d (joined r.pivot.now) 0 n work.old work.new result }
    {
        let rows = self.renew_on(work, n, 0, self.gap.from);
        rows + self.renew_on(work, n, self.gap.to, n)
    }
}

// A copy of the row of s, without its weight to itself.
fn pivot(part: &[u64], s: usize) -> [u64; Chain::WIDTH]
    requires { (length part.now ≤ width most_states) × (s < length part.now) }
    ensures { (length result ≡ width most_states) × ((j : ℕ) → slice_index result j ≡ slice_index (slice_set part.now s 0) j) }
{
    let mut p = load(part);
    p[s] = 0;
    p
}

// The row of s in the table, without its weight to itself.
pub(crate) fn pivot_of(work: &[u64], n: usize, s: usize) -> [u64; Chain::WIDTH]
    requires { (n ≤ most_states) × (work_size n ≤ length work.now) × (s < n) }
    ensures { (length result ≡ width most_states) × ((j : ℕ) → slice_index result j ≡ slice_index (slice_set (part_at n work.now s) s 0) j) }
{
    let a = row_start(n, s);
    let e = a + n + Chain::BESIDE;
    pivot(&work[a..e], s)
}

// Makes the row of s zero.
fn clear_row(work: &mut [u64], n: usize, s: usize)
    requires { (n ≤ most_states) × (work_size n ≤ length work.old) × (s < n) }
    ensures { Changed n work.old s (replicate (width n) 0) work.new }
{
    let a = row_start(n, s);
    let e = a + n + Chain::BESIDE;
    clear(&mut work[a..e]);
}

// Removes the state s by a copy of its row. Only the copy is settled: to settle each new row would cost two more passes over it. The gap may have the
// column of s already: the copy has no weight there, and a row that is made anew has none either.
fn remove_by(work: &mut [u64], n: usize, s: usize, pivot: &mut [u64], gap: Gap) -> u64
    requires few_states { (n ≤ most_states) × (work_size n ≤ length work.old) × (s < n) × (length pivot.old ≡ width n) }
    requires going { Going n s gap work.old × Empty gap pivot.old }
    ensures { RemovedBy n s (settled_words pivot.old) work.old work.new result }
{
    settle(pivot, gap);
    let d = total(pivot, gap);
    let p = parts(pivot);
    clear_row(work, n, s);
    let by = Removal {
        s,
        d,
        pivot: &p,
        gap,
    };
    by.renew_all(work, n)
}

// Removes the state s from the table, and answers how many rows were made anew.
pub(crate) fn remove(work: &mut [u64], n: usize, s: usize, gap: Gap) -> u64
    requires { (n ≤ most_states) × (work_size n ≤ length work.old) × (s < n) × Going n s gap work.old }
    ensures { RemovedWords n s work.old work.new result }
{
    let mut p = pivot_of(work, n, s);
    let m = n + Chain::BESIDE;
    remove_by(work, n, s, &mut p[..m], gap)
}
