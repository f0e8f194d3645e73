// The records of a trace, one by one and in a lent list.
ghost use Rattle.std.specs.Prelude.{◌≡◌, map, ◌<◌, length};
ghost use Rattle.meaning.specs.Number.{filled};
ghost use Rattle.meaning.specs.Chain.{most_states};
ghost use Rattle.engines.specs.Trace.{record_in};
ghost use Rattle.steplist.specs.Told.{told, shown, records_for};

use crate::StepRecord;
use chain::Chain;
use engines::answer::Trace;

// Record i of a trace.
fn record_at(t: Trace, i: usize) -> StepRecord
    requires { i < most_states }
    ensures { told result ≡ record_in t.numbers i }
{
    let k = Trace::RECORD * i;
    StepRecord {
        state: t.numbers[k + 1],
        rows: t.numbers[k + 2],
        columns: t.numbers[k + 3],
        divisor: t.numbers[k + 4],
    }
}

// How many records of a trace a list with so much room is given.
fn shown(t: Trace, room: usize) -> usize
    ensures { result ≡ shown t room }
{
    let count = t.numbers[0] as usize;
    count.min(Chain::STATES).min(room)
}

// Writes the records of a trace to the front of a list, as many as it has room for.
pub fn fill(list: &mut [StepRecord], t: Trace)
    ensures { let before = list.old in
        map told list.new ≡ filled (records_for t (length before)) (map told before) }
{
    let most = shown(t, list.len());
    for (i, r) in list[..most].iter_mut().enumerate() {
        *r = record_at(t, i);
    }
}
