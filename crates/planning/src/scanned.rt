// The fewest copies that keep a limit.
ghost use Rattle.std.specs.Prelude.{◌≤◌, ◌<◌, ◌≡◌, eqb, length};
ghost use Rattle.meaning.specs.Number.{choose};
ghost use Rattle.meaning.specs.Copies.{Sensible};
ghost use Rattle.meaning.specs.Limit.{IsLimit};
ghost use Rattle.meaning.specs.PlanTable.{with_copies, copies_room};
ghost use Rattle.meaning.specs.Fewest.{fewest_room, FewestReport, FewestOutcome};
ghost use Rattle.report.specs.Stands.{Stands, told};
ghost use Rattle.lines.specs.Widths.{Fits};
ghost use Rattle.limit.specs.Told.{told as toldLimit};
ghost use Rattle.planning.specs.Told.{told_weights};
ghost use Rattle.planning.specs.Line.{chances_of, fewest_line, open_line};
ghost use Rattle.planning.specs.Scan.{Scanned, open_room};

use crate::asked::{BROKEN, KEPT, verdict};
use crate::line::plan_line;
use crate::tabled::COPIES;
use crate::weights::{Weights, refused, weighed, with_copies};
use chain::refusal::{Fault, Refusal};
use limit::{Limit, sound};
use report::answer;
use text::Page;

// Room for any line of a plan, and any that follows.
pub const FEWEST_ROOM: usize = 152;

// The fewest that are kept, or one more than the most; and the first below them that cannot be said.
#[derive(Clone, Copy)]
struct Found {
    fewest: u64,
    first: u64,
}

fn follows(said: u32, next: u64, first: u64) -> u64
    ensures { result ≡ choose (eqb said 2) next first }
{
    if said == BROKEN {
        return next;
    }
    first
}

fn scan(w: Weights, m: Limit) -> Found
    requires { Sensible (with_copies (told_weights w) 1) × IsLimit (toldLimit m) }
    ensures { Scanned (told_weights w) (toldLimit m) result.fewest result.first }
{
    let mut first = 1;
    for c in 1..=COPIES {
        let said = verdict(with_copies(w, c), m);
        if said == KEPT {
            return Found { fewest: c, first };
        }
        first = follows(said, c + 1, first);
    }
    Found {
        fewest: COPIES + 1,
        first,
    }
}

fn fewest_line(page: &mut Page, w: Weights, fewest: u64)
    requires { Sensible (with_copies (told_weights w) 1) × (0 < fewest) }
    ensures { Fits page.old (fewest_line (chances_of (told_weights w)) fewest) copies_room page.new }
{
    if fewest <= COPIES {
        return plan_line(page, b"copies ", with_copies(w, fewest));
    }
    plan_line(page, b"none ", with_copies(w, COPIES));
}

fn open_line(page: &mut Page, fewest: u64, first: u64)
    ensures { Fits page.old (open_line fewest first) open_room page.new }
{
    if first < fewest {
        page.named(b"open ", first);
        page.put(b"\n");
    }
}

fn both(buffer: &mut [u8], w: Weights, m: Limit) -> usize
    requires { Sensible (with_copies (told_weights w) 1) × IsLimit (toldLimit m) × (fewest_room ≤ length buffer.old) }
    ensures { Stands (FewestReport (told_weights w) (toldLimit m)) buffer.old result buffer.new }
{
    let s = scan(w, m);
    let mut page = Page { buffer, at: 0 };
    fewest_line(&mut page, w, s.fewest);
    open_line(&mut page, s.fewest, s.first);
    page.at
}

// A line or two at the front of the buffer: the fewest copies with their figures, and from where on it cannot be said. 31 comes before 35.
pub fn fewest(w: Weights, m: Limit, buffer: &mut [u8]) -> Result<usize, Refusal>
    ensures { FewestOutcome (told_weights w) (toldLimit m) buffer.old (told result) buffer.new }
{
    if buffer.len() < FEWEST_ROOM {
        return Err(Refusal::from(Fault::Room));
    }
    let wrong = weighed(w);
    if wrong.number != 0 {
        return answer(refused(wrong.number, wrong.place), buffer);
    }
    if sound(m) {
        return Ok(both(buffer, w, m));
    }
    answer(refused(35, 0), buffer)
}
