// A row with a place for each column: what becomes of it when a state is removed.
ghost use Rattle.std.specs.Prelude.{◌≡◌, ℕ, ◌+◌, ◌*◌, ◌^◌, ◌<◌, ◌≤◌, length, slice_set};
ghost use Rattle.near.specs.Word.{word, value};
ghost use Rattle.near.specs.Split.{Small, value_of};
ghost use Rattle.near.specs.Row.{value_at, replaced_words, Parts, joined};
ghost use Rattle.near.specs.Gap.{Spanned, Empty, Within};

use crate::step::Removal;
use crate::word::{Split, lone, mix};
use chain::Chain;

// The columns from `from` to before `to`: of states that are gone, so that no row has a weight there.
#[derive(Clone, Copy)]
pub(crate) struct Gap {
    pub(crate) from: usize,
    pub(crate) to: usize,
}

impl Gap {
    // No column.
    pub(crate) const NONE: Gap = Gap { from: 0, to: 0 };
}

// The word of the sum of two products, with no work where nothing is there.
fn cell(x: u64, d: Split, p: u64, y: u64, w: Split) -> u64
    requires { Small d × (p < 2 ^ 31) × (y < 2 ^ 33) × Small w }
    ensures { result ≡ word (value x * value_of d + value_of w * (p * 2 ^ y)) }
{
    if x == 0 {
        if p == 0 {
            return 0;
        }
        return lone(p, y, w);
    }
    mix(x, d, p, y, w)
}

// The new weights in the columns from `from` to before `to`.
fn blend(row: &mut [u64], pivot: &[u64], d: u64, w: u64, from: usize, to: usize)
    requires { (from ≤ to) × (to ≤ length row.old) × (length row.old ≤ 68) × Parts pivot.now }
    ensures { let l = row.old in
        Spanned (λ (j : ℕ). word (value_at l j * value d + value w * value_at (joined pivot.now) j)) from to l row.new }
{
    let by = Split::of(d);
    let weight = Split::of(w);
    for j in from..to {
        row[j] = cell(row[j], by, pivot[j], pivot[j + Chain::WIDTH], weight);
    }
}

// A row once a state is removed. Nothing stands in the gap but the weight to the state.
pub(crate) fn replace(row: &mut [u64], by: &Removal)
    requires shape { let r = by.now in
        (length row.old ≤ 68) × (r.s < length row.old) × Within r.gap (length row.old) × Parts r.pivot.now }
    requires gap_empty { let r = by.now in Empty r.gap (slice_set row.old r.s 0) × Empty r.gap (joined r.pivot.now) }
    ensures { let r = by.now in row.new ≡ replaced_words r.s r.d (joined r.pivot.now) row.old }
{
    let w = row[by.s];
    row[by.s] = 0;
    let m = row.len();
    blend(row, by.pivot, by.d, w, 0, by.gap.from);
    blend(row, by.pivot, by.d, w, by.gap.to, m);
}
