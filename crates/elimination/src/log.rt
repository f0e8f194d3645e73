// The log: what is noted of a step, for an elimination that is asked to tell.
ghost use Rattle.std.specs.Prelude.{◌≡◌, true, List, [], ◌∷◌, ◌++◌, ℕ, ◌≤◌, ◌<◌, length, get_or, is_some};
ghost use Rattle.meaning.specs.Number.{choose, bit, present};
ghost use Rattle.meaning.specs.Chain.{most_states};
ghost use Rattle.meaning.specs.Refusal.{work_size};
ghost use Rattle.meaning.specs.Step.{removed};
ghost use Rattle.meaning.specs.Steps.{StepRecord, rows_to, columns_of, record_of};
ghost use Rattle.elimination.specs.Packed.{states_of, unpacked, Packed};
ghost use Rattle.elimination.specs.Table.{part_at, table_of, row_at, Fitting};
ghost use Rattle.elimination.specs.Turn.{Made};
ghost use Rattle.elimination.specs.Log.{log_size, HoldsRecords, Roomy, LoggedMore};

use crate::course::Noted;
use crate::part::{GOAL, TRAP};
use crate::step::remove;
use crate::work::row_start;
use chain::Chain;
use chain::bits::count;
use chain::set::holds;

// 1 where a set holds the state s, and 0 where it does not or is that of the state's own row.
fn counted(targets: u64, s: usize, own: bool) -> u64
    ensures { (result ≡ choose own 0 (bit targets s)) × (result ≤ 1) }
{
    u64::from(!own && holds(targets, s))
}

// 1 for a weight, and 0 for none.
fn weighed(x: u64) -> u64
    ensures { (result ≡ present x) × (result ≤ 1) }
{
    u64::from(x != 0)
}

// How many rows but that of s have a weight to s: those whose targets have s.
fn rows_to(work: &[u64], n: usize, s: usize) -> u64
    requires { (n ≤ most_states) × (work_size n ≤ length work.now) × (s < n) × ((i : ℕ) → i < n → Packed n (part_at n work.now i)) }
    ensures { result ≡ rows_to n s (table_of n work.now) }
{
    let mut rows = 0;
    for i in 0..n {
        rows += counted(work[row_start(n, i)], s, i == s);
    }
    rows
}

// In how many columns but its own the row of s has a weight: its other targets, Goal and Trap.
fn columns_in(part: &[u64], s: usize) -> u64
    requires { let n = states_of part.now in (n ≤ most_states) × (s < n) × Packed n part.now }
    ensures { let p = part.now in
        let n = states_of p in
        result ≡ columns_of n s (unpacked n p) }
{
    let targets = part[0];
    count(targets) as u64 + weighed(part[GOAL]) + weighed(part[TRAP]) - counted(targets, s, false)
}

// The same, in the work table.
fn columns_of(work: &[u64], n: usize, s: usize) -> u64
    requires { (n ≤ most_states) × (work_size n ≤ length work.now) × (s < n) × Packed n (part_at n work.now s) }
    ensures { result ≡ columns_of n s (row_at n work.now s) }
{
    let a = row_start(n, s);
    let e = a + n + Chain::BESIDE;
    columns_in(&work[a..e], s)
}

// Puts a record behind the others.
fn note(log: &mut [u64], state: u64, rows: u64, columns: u64, divisor: u64)
    requires { (length log.old ≡ log_size) × (get_or log.old 0 0 < most_states) }
    ensures { let r : StepRecord = record { state = state; rows = rows; columns = columns; divisor = divisor } in
        ((rs : List StepRecord) → HoldsRecords log.old rs → HoldsRecords log.new (rs ++ (r ∷ []))) }
{
    let count = log[0];
    let k = 1 + Noted::RECORD * count as usize;
    log[0] = count + 1;
    log[k] = state;
    log[k + 1] = rows;
    log[k + 2] = columns;
    log[k + 3] = divisor;
}

// Removes the state s from the table and, where a log is asked for, notes the step once it is finished; nothing where a row does not fit.
pub(crate) fn remove_noted(
    work: &mut [u64],
    n: usize,
    s: usize,
    rounding: bool,
    log: &mut [u64],
) -> Option<()>
    requires { Fitting rounding n work.old × (s < n) × Roomy log.old }
    ensures { let w = work.old in
        let t = table_of n w in
        Made rounding n (removed rounding n s t) w work.new result × LoggedMore true (record_of n s t) log.old log.new (is_some result) }
{
    if log.is_empty() {
        remove(work, n, s, rounding)?;
        return Some(());
    }
    let rows = rows_to(work, n, s);
    let columns = columns_of(work, n, s);
    let divisor = remove(work, n, s, rounding)?;
    note(log, s as u64, rows, columns, divisor);
    Some(())
}
