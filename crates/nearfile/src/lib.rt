// Near chances of the chain in a file, from its own start or from another state.
#![tactic(auto)]

ghost use Rattle.meaning.specs.FileNear.{FileNear};
ghost use Rattle.chainfile.specs.Input.{input};
ghost use Rattle.near.specs.Answer.{told_near, told_miss};
ghost use Rattle.nearfile.specs.From.{from_of, NearFrom};

use chain::Chain;
use chain::given::Given;
use chain::refusal::Refusal;
use near::answer::Figures;
use near::entry::near_unlent;
use opening::Opened;

// The near chances of an opened file.
fn near_of(opened: &Opened, from: Option<u64>) -> Result<Figures, Refusal>
    ensures { NearFrom opened.now from result }
{
    let given = opened.given;
    let own = given.chain;
    let chain = Chain {
        start: from.map_or(own.start, |i| i as usize),
        ..own
    };
    near_unlent(&Given { chain, ..given }, opened.order)
}

// Those of the chain file of which `kept` holds the first bytes and `more` counts the others. They are asked from the file's own start, or from a
// number that takes its place, whether it is a state or not.
pub fn near(kept: &[u8], more: u64, from: Option<u64>) -> Result<Figures, Refusal>
    ensures { FileNear (input kept.now more) (from_of from) (told_near result) (told_miss result) }
{
    opening::with(kept, more, &mut |opened| near_of(opened, from))
}
