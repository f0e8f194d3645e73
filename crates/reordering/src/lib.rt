// A chain file with the chosen order in place of its own: the file of the same chain, by the writer.
#![tactic(auto)]

ghost use Rattle.std.specs.Prelude.{◌≤◌, length};
ghost use Rattle.meaning.specs.Chain.{most_states};
ghost use Rattle.meaning.specs.Reorder.{longest_file, ReorderOutcome};
ghost use Rattle.chainfile.specs.Input.{input};
ghost use Rattle.chainwriter.specs.Tells.{told};
ghost use Rattle.reordering.specs.Rewritten.{Rewritten};

use chain::Chain;
use chain::refusal::{Fault, Refusal};
use opening::Opened;

// Room for any chain file.
pub const ROOM: usize = chainfile::LONGEST;

// Writes the file of an accepted file's chain and tables, with the chosen order.
fn rewrite(opened: &Opened, buffer: &mut [u8]) -> Result<usize, Refusal>
    requires { (opened.now.given.chain.states ≤ most_states) × (longest_file ≤ length buffer.old) }
    ensures { Rewritten opened.now buffer.old result buffer.new }
{
    let mut list = [0u64; Chain::STATES];
    let list = &mut list[..opened.given.chain.states];
    choice::choose(&opened.given, list)?;
    chainwriter::write(&opened.given, list, opened.rewards, buffer)
}

// Writes the chain file of which `kept` holds the first bytes and `more` counts the others, with the chosen order, at the front of the
// buffer, and answers its length. A refusal leaves the whole buffer.
pub fn reorder(kept: &[u8], more: u64, buffer: &mut [u8]) -> Result<usize, Refusal>
    ensures { ReorderOutcome (input kept.now more) buffer.old (told result) buffer.new }
{
    if buffer.len() < ROOM {
        return Err(Refusal::from(Fault::Room));
    }
    opening::with(kept, more, &mut |opened| rewrite(opened, buffer))
}
