// A step: one state is removed from the table, one packed row at a time.
ghost use Rattle.std.specs.Prelude.{◌≡◌, false, ℕ, ◌<◌, ◌≤◌, length, eqb, IfSome};
ghost use Rattle.meaning.specs.Chain.{most_states, M};
ghost use Rattle.meaning.specs.Number.{largest, bit, decides};
ghost use Rattle.meaning.specs.Row.{width, divisor, settled};
ghost use Rattle.meaning.specs.Refusal.{work_size};
ghost use Rattle.meaning.specs.Step.{combined, renewed, outside, removed};
ghost use Rattle.meaning.specs.Steps.{taken_out, largest_taken};
ghost use Rattle.elimination.specs.Packed.{targets_of, states_of, unpacked, Packed, Room};
ghost use Rattle.elimination.specs.Row.{Fit, Removable, Became};
ghost use Rattle.elimination.specs.Table.{part_at, row_at, table_of, Placed, ChangedBy, Renewed, Fitting};
ghost use Rattle.elimination.specs.Turn.{Made};

use crate::merge::replace;
use crate::part::{end, load, spread, weight};
use crate::row::{settle, total};
use crate::work::{clear, row_start};
use chain::Chain;
use chain::set::holds;

// The removal of state s from a table of n states: d is the D of s, pivot a copy of its row, and y has the weights of that by state.
#[derive(Clone, Copy)]
struct Removal<'a> {
    n: usize,
    s: usize,
    d: u64,
    pivot: &'a [u64; Chain::WIDTH],
    y: &'a [u64; Chain::WIDTH],
    rounding: bool,
    ghost few: { n ≤ most_states },
    ghost removable: { Removable rounding n s d pivot.now y.now },
}

impl Removal<'_> {
    // The row of another state, which has a weight to s, once s is removed.
    fn change(&self, part: &mut [u64]) -> Option<u64>
        requires { let e = self.now in
            let p = part.old in
            Packed e.n p × Fit e.rounding e.n (unpacked e.n p) × Room (length p) p e.pivot.now × (bit (targets_of p) e.s ≡ 1) }
        ensures { let e = self.now in
            let z = combined e.s e.d (unpacked e.n e.pivot.now) (unpacked e.n part.old) in
            Became e.rounding e.n (settled e.rounding e.n z) (divisor z) part.new result }
    {
        replace(part, self.pivot, self.y, self.s, self.d);
        settle(part, self.rounding)
    }

    // A row that changes, once s is removed: the row of s itself where `own` holds, else one with a weight to s.
    fn renew(&self, part: &mut [u64], own: bool) -> Option<u64>
        requires { let e = self.now in
            let p = part.old in
            Packed e.n p × Fit e.rounding e.n (unpacked e.n p) × Room (length p) p e.pivot.now × (own ≡ false → bit (targets_of p) e.s ≡ 1) }
        ensures { let e = self.now in
            let p = unpacked e.n e.pivot.now in
            let z = unpacked e.n part.old in
            Became e.rounding e.n (renewed e.rounding e.n e.s e.d p own z) (taken_out e.s e.d p own z) part.new result }
    {
        if own {
            clear(part);
            return Some(1);
        }
        self.change(part)
    }

    // Whether the removal changes row i of the table, which a look at its targets shows: it is that of s, or has a weight to s.
    fn changes(&self, work: &[u64], i: usize) -> bool
        requires { let e = self.now in (work_size e.n ≤ length work.now) × (i < e.n) }
        ensures { let e = self.now in decides (ChangedBy e.s i (targets_of (part_at e.n work.now i))) result }
    {
        i == self.s || holds(work[row_start(self.n, i)], self.s)
    }

    // Renews row i of the table, which changes. The rest of the work table is as it was. It is kept out of the loop over the rows, which has few
    // instructions for a row that stays.
    #[inline(never)]
    fn renew_row(&self, work: &mut [u64], i: usize) -> Option<u64>
        requires { let e = self.now in
            let w = work.old in
            let z = part_at e.n w i in
            (work_size e.n ≤ length w) × (i < e.n) × Packed e.n z × Fit e.rounding e.n (row_at e.n w i) × Room (width e.n) z e.pivot.now
            × ChangedBy e.s i (targets_of z) }
        ensures { let e = self.now in
            let w = work.old in
            let p = unpacked e.n e.pivot.now in
            let z = row_at e.n w i in
            Placed e.rounding e.n w i (renewed e.rounding e.n e.s e.d p (eqb i e.s) z) (taken_out e.s e.d p (eqb i e.s) z) work.new result }
    {
        let a = row_start(self.n, i);
        let e = a + self.n + Chain::BESIDE;
        self.renew(&mut work[a..e], i == self.s)
    }

    // Renews each row that changes, up to the first that does not fit, and answers the largest divisor that was taken out of one. Most rows stay.
    fn renew_all(&self, work: &mut [u64]) -> Option<u64>
        requires { let e = self.now in
            Fitting e.rounding e.n work.old × ((i : ℕ) → i < e.n → Room (width e.n) (part_at e.n work.old i) e.pivot.now) }
        ensures { let e = self.now in
            let w = work.old in
            let p = unpacked e.n e.pivot.now in
            Renewed e.rounding (λ k. renewed e.rounding e.n e.s e.d p (eqb k e.s) (row_at e.n w k)) e.n w work.new result
            × IfSome result (λ r. r ≡ largest (λ k. taken_out e.s e.d p (eqb k e.s) (row_at e.n w k)) e.n) }
    {
        let mut divisor = 1u64;
        for i in 0..self.n {
            if self.changes(work, i) {
                divisor = divisor.max(self.renew_row(work, i)?);
            }
        }
        Some(divisor)
    }
}

// D of state s, whose row this is.
pub(crate) fn outside(part: &[u64], s: usize, rounding: bool) -> u64
    requires { let n = states_of part.now in
        (n ≤ most_states) × (s < n) × Packed n part.now × Fit rounding n (unpacked n part.now) }
    ensures { let p = part.now in
        let n = states_of p in
        (result ≡ outside n s (unpacked n p)) × (result ≤ M) }
{
    let e = end(part);
    total(part, e) - weight(part, s)
}

// Removes the state s from the table, and answers the largest divisor that was taken out of a row; nothing where a row does not fit.
pub(crate) fn remove(work: &mut [u64], n: usize, s: usize, rounding: bool) -> Option<u64>
    requires { Fitting rounding n work.old × (s < n) }
    ensures { let w = work.old in
        let t = table_of n w in
        Made rounding n (removed rounding n s t) w work.new result × IfSome result (λ r. r ≡ largest_taken n s t) }
{
    let a = row_start(n, s);
    let row = &work[a..a + n + Chain::BESIDE];
    let d = outside(row, s, rounding);
    let pivot = load(row);
    let y = spread(row);
    let removal = Removal {
        n,
        s,
        d,
        pivot: &pivot,
        y: &y,
        rounding,
    };
    removal.renew_all(work)
}
