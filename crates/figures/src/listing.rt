// The chance and the step list of an opened file.
ghost use Rattle.std.specs.Prelude.{◌≡◌, Err, replicate};
ghost use Rattle.meaning.specs.Block.{Input};
ghost use Rattle.elimination.specs.Log.{log_size};
ghost use Rattle.opening.specs.Asked.{Shown};
ghost use Rattle.figures.specs.Traced.{FileTraced};

use chain::Chain;
use chain::refusal::Refusal;
use engines::answer::Trace;
use engines::entry;
use opening::Opened;

// The chance and the step list of the chain and tables of an accepted file.
pub(crate) fn trace(opened: &Opened, list: usize) -> Trace
    ensures { (f : Input) → Shown f opened.now → FileTraced f list result }
{
    let mut work = [0u64; Chain::WORK];
    entry::trace(&opened.given, opened.order, &mut work, list)
}

// Of a file that is refused there is no record.
pub(crate) fn no_trace(r: Refusal) -> Trace
    ensures { (result.chance ≡ Err r) × (result.numbers ≡ replicate log_size 0) }
{
    Trace {
        chance: Err(r),
        numbers: [0; Trace::NUMBERS],
    }
}
