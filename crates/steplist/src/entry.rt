// The chance entry's companion.
ghost use Rattle.std.specs.Prelude.{[], map, length};
ghost use Rattle.meaning.specs.Steps.{StepsOutcome};
ghost use Rattle.meaning.specs.Refusal.{with_list};
ghost use Rattle.chain.specs.Given.{with};
ghost use Rattle.engines.specs.Answer.{told_chance};
ghost use Rattle.steplist.specs.Told.{told};

use crate::list::fill;
use crate::{StepRecord, Steps};
use chain::given::Given;
use engines::entry::trace;

// The chance, and a record for each state that is removed, from the front of the list.
pub fn steps(g: &Given, order: &[u64], work: &mut [u64], list: &mut [StepRecord]) -> Steps
    ensures { let l = with_list (length list.old) (with g.now order.now [] work.old) in
        StepsOutcome l (map told list.old) (told_chance result.chance) result.count work.new (map told list.new) }
{
    let t = trace(g, order, work, list.len());
    fill(list, t);
    Steps {
        chance: t.chance,
        count: t.numbers[0] as usize,
    }
}
