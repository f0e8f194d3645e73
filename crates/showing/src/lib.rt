// The text form of chain files, written: a chain file is shown as a text.
#![tactic(auto)]

ghost use Rattle.meaning.specs.Translate.{ShowOutcome, TextedOutcome};
ghost use Rattle.chainfile.specs.Input.{input};
ghost use Rattle.report.specs.Stands.{told};

use chain::Chain;
use chain::refusal::{Fault, Refusal};
use report::Answer;

mod print;

// Room for any chain's text: a number of 64 bits has 20 digits.
const STATE_LINE: usize = (6 + 20) + (13 + 20) + (8 + 20) + 5 + 1;

const EDGE_LINE: usize = (5 + 20) + (1 + 20) + (8 + 20) + (8 + 20) + 1;

pub const ROOM: usize = (7 + 21)
    + (6 + 21)
    + (6 + 21)
    + Chain::STATES * STATE_LINE
    + (5 + Chain::STATES * 21 + 1)
    + Chain::EDGES * EDGE_LINE;

// Writes the text of the chain file of which `kept` holds the first bytes and `more` counts the others, at the front of the buffer, and answers
// its length. A refusal leaves the whole buffer.
pub fn text(kept: &[u8], more: u64, buffer: &mut [u8]) -> Result<usize, Refusal>
    ensures { TextedOutcome (input kept.now more) buffer.old (told result) buffer.new }
{
    if buffer.len() < ROOM {
        return Err(Refusal::from(Fault::Room));
    }
    opening::with(kept, more, &mut |opened| Ok(print::lines(opened, buffer)))
}

// Shows it: a refusal's line is written where there is no text.
pub fn show(kept: &[u8], more: u64, buffer: &mut [u8]) -> Result<usize, Refusal>
    ensures { ShowOutcome (input kept.now more) buffer.old (told result) buffer.new }
{
    if buffer.len() < ROOM {
        return Err(Refusal::from(Fault::Room));
    }
    match text(kept, more, buffer) {
        Ok(n) => Ok(n),
        Err(r) => report::answer(Answer::from(r), buffer),
    }
}
