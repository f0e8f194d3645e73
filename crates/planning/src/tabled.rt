// The table of all numbers of copies with the same weights.
ghost use Rattle.meaning.specs.Copies.{most_copies, Sensible};
ghost use Rattle.meaning.specs.PlanTable.{with_copies, table_text, table_room, PlanTableOutcome};
ghost use Rattle.report.specs.Stands.{told};
ghost use Rattle.lines.specs.Widths.{Fits};
ghost use Rattle.planning.specs.Told.{told_weights};
ghost use Rattle.planning.specs.Line.{chances_of};

use crate::line::plan_line;
use crate::weights::{Weights, refused, weighed, with_copies};
use chain::refusal::{Fault, Refusal};
use report::answer;
use text::Page;

// The most copies of a plan.
pub(crate) const COPIES: u64 = 32;

// Room for any table: 32 lines of 126 bytes.
pub const TABLE_ROOM: usize = 4032;

fn rows(page: &mut Page, w: Weights)
    requires { Sensible (with_copies (told_weights w) 1) }
    ensures { Fits page.old (table_text (chances_of (told_weights w)) most_copies) table_room page.new }
{
    for c in 0..COPIES {
        plan_line(page, b"copies ", with_copies(w, c + 1));
    }
}

// A line for each number of copies, at the front of the buffer; or the line of a refusal.
pub fn table(w: Weights, buffer: &mut [u8]) -> Result<usize, Refusal>
    ensures { PlanTableOutcome (told_weights w) buffer.old (told result) buffer.new }
{
    if buffer.len() < TABLE_ROOM {
        return Err(Refusal::from(Fault::Room));
    }
    let wrong = weighed(w);
    if wrong.number != 0 {
        return answer(refused(wrong.number, wrong.place), buffer);
    }
    let mut page = Page { buffer, at: 0 };
    rows(&mut page, w);
    Ok(page.at)
}
