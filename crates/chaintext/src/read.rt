// The reader of chain texts.
ghost use Rattle.std.specs.Prelude.{◌≡◌, ◌+◌, ◌≤◌, ◌<◌, length, take, drop};
ghost use Rattle.theory.specs.Texts.Ended.{part};
ghost use Rattle.chaintext.specs.Turns.{tables, Cells, Ready};
ghost use Rattle.chaintext.specs.Read.{finished, PassedAs, ReadAs};

use crate::turns::{Held, Turn};
use crate::{split, turns};
use chain::refusal::{Fault, Refusal};

// At the end of the text, after so many lines: a line that is missing is the next.
fn finish(turn: Turn, held: Held, number: usize) -> Result<Held, Refusal>
    requires { number ≤ 4294967295 }
    ensures { result ≡ finished turn held number }
{
    match turn {
        Turn::Edge(e) if held.edges <= e => Ok(held),
        _ => Err(Refusal::at(Fault::Line, number + 1)),
    }
}

// One line, which may be passed over.
fn step(
    line: &[u8],
    turn: Turn,
    held: Held,
    denominators: &mut [u64],
    edges: &mut [u64],
    order: &mut [u64],
    rewards: &mut [u64],
) -> Option<(Turn, Held)>
    requires { Ready turn held (tables denominators.old edges.old order.old rewards.old) }
    ensures { let before = tables denominators.old edges.old order.old rewards.old in
        let after = tables denominators.new edges.new order.new rewards.new in
        PassedAs turn held before line.now after result }
{
    if split::is_passed(line) {
        return Some((turn, held));
    }
    turns::take(line, turn, held, denominators, edges, order, rewards)
}

// Reads a text into tables of the largest chain's size, whose numbers are in range. Answers what it says beside them; a text is refused at a line.
pub(crate) fn read(
    text: &[u8],
    denominators: &mut [u64],
    edges: &mut [u64],
    order: &mut [u64],
    rewards: &mut [u64],
) -> Result<Held, Refusal>
    requires { (length text.now ≤ 4294967295) × Cells (tables denominators.old edges.old order.old rewards.old) }
    ensures { let after = tables denominators.new edges.new order.new rewards.new in
        ReadAs text.now after result }
{
    let mut turn = Turn::States;
    let mut held = Held {
        states: 1,
        edges: 1,
        start: 0,
        goals: 0,
    };
    let mut number = 0;
    let mut at = 0;
    while at < text.len() {
        let end = split::end(text, at);
        let line = &text[at..end];
        let Some((t, h)) = step(line, turn, held, denominators, edges, order, rewards) else {
            return Err(Refusal::at(Fault::Line, number + 1));
        };
        number += 1;
        if end == text.len() {
            return finish(t, h, number);
        }
        turn = t;
        held = h;
        at = end + 1;
    }
    finish(turn, held, number)
}
