// The text form of chain files, read: a chain file is made from a text.
#![tactic(auto)]

ghost use Rattle.std.specs.Prelude.{◌≤◌, length};
ghost use Rattle.meaning.specs.Number.{decides};
ghost use Rattle.meaning.specs.Reorder.{longest_file};
ghost use Rattle.meaning.specs.Translate.{most_text, TextLong, MakeOutcome};
ghost use Rattle.octets.specs.Input.{input};
ghost use Rattle.chainwriter.specs.Tells.{told};

use chain::given::Given;
use chain::refusal::{Fault, Refusal};
use chain::{Chain, edge};

mod lines;
mod pieces;
mod read;
mod split;
mod turns;

// The longest text that is read.
pub const LONGEST: usize = 262144;

// Room for any chain file.
pub const FILE_ROOM: usize = octets::layout::LONGEST;

// A text of which not all was kept is too long as well.
fn too_long(text: &[u8], more: u64) -> bool
    ensures { decides (TextLong (input text.now more)) result }
{
    LONGEST < text.len() || 0 < more
}

// Reads a text, and writes the file of the chain that it says.
fn translate(text: &[u8], buffer: &mut [u8]) -> Result<usize, Refusal>
    requires { (length text.now ≤ most_text) × (longest_file ≤ length buffer.old) }
    ensures { MakeOutcome (input text.now 0) buffer.old (told result) buffer.new }
{
    let mut denominators = [0u64; Chain::STATES];
    let mut edges = [0u64; edge::MOST];
    let mut order = [0u64; Chain::STATES];
    let mut rewards = [0u64; Chain::STATES];
    let held = read::read(
        text,
        &mut denominators,
        &mut edges,
        &mut order,
        &mut rewards,
    )?;
    let n = held.states;
    let given = Given {
        chain: Chain {
            states: n,
            start: held.start,
            goals: held.goals,
        },
        denominators: &denominators[..n],
        edges: &edges[..edge::SIZE * held.edges],
    };
    chainwriter::write(&given, &order[..n], &rewards[..n], buffer)
}

// Writes the chain file of the text of which `text` holds the first bytes and `more` counts the others, at the front of the buffer, and
// answers its length. A refusal leaves the whole buffer.
pub fn make(text: &[u8], more: u64, buffer: &mut [u8]) -> Result<usize, Refusal>
    ensures { MakeOutcome (input text.now more) buffer.old (told result) buffer.new }
{
    if buffer.len() < FILE_ROOM {
        return Err(Refusal::from(Fault::Room));
    }
    if too_long(text, more) {
        return Err(Refusal::from(Fault::TextLength));
    }
    translate(text, buffer)
}
