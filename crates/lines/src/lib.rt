// The texts of a line or two that programs print of a chain file, at the front of a lent buffer.
#![tactic(auto)]

ghost use Rattle.std.specs.Prelude.{Ok};
ghost use Rattle.meaning.specs.Report.{answer_room};
ghost use Rattle.meaning.specs.Within.{within_text, within_room, WithinReportOutcome};
ghost use Rattle.meaning.specs.Judge.{verdict_line as judged_text, JudgeReportOutcome};
ghost use Rattle.meaning.specs.FileNear.{NearReportOutcome};
ghost use Rattle.meaning.specs.FileLimit.{LimitReportOutcome};
ghost use Rattle.nearfile.specs.From.{from_of};
ghost use Rattle.chainfile.specs.Input.{input};
ghost use Rattle.limit.specs.Told.{told as limitOf};
ghost use Rattle.equations.specs.Judge.{told as verdictOf};
ghost use Rattle.report.specs.Stands.{told};
ghost use Rattle.lines.specs.Widths.{Fits};

use chain::refusal::{Fault, Refusal};
use equations::{PARTS, Verdict};
use figures::Answer;
use limit::Limit;
use limit_line::verdict_line;
use text::{DIGITS, Page};
use two_lines::found_lines;

mod limit_line;
mod two_figures;
mod two_lines;

pub use limit_line::LIMIT_ROOM;
pub use two_figures::figures_line;
pub use two_lines::NEAR_ROOM;

// Room for any line of parts, and with it for that of any refusal.
pub const WITHIN_ROOM: usize = (7 + DIGITS) + (1 + DIGITS) + (4 + DIGITS) + 1;

fn parts_line(page: &mut Page, steps: u64, parts: u64)
    ensures { Fits page.old (within_text steps parts) within_room page.new }
{
    page.named(b"within ", steps);
    page.named(b" ", parts);
    page.named(b" of ", PARTS);
    page.put(b"\n");
}

// The line of a chain file's chance within so many steps, or of the refusal. `kept` holds the file's first bytes and `more` counts the others.
pub fn within(kept: &[u8], more: u64, steps: u64, buffer: &mut [u8]) -> Result<usize, Refusal>
    ensures { WithinReportOutcome (input kept.now more) steps buffer.old (told result) buffer.new }
{
    if buffer.len() < WITHIN_ROOM {
        return Err(Refusal::from(Fault::Room));
    }
    match figures::within(kept, more, steps) {
        Ok(parts) => {
            let mut page = Page { buffer, at: 0 };
            parts_line(&mut page, steps, parts);
            Ok(page.at)
        }
        Err(r) => report::answer(Answer::from(r), buffer),
    }
}

// Room for any line of a verdict: a refusal's is the longest.
pub const CHECK_ROOM: usize = report::ANSWER_ROOM;

fn judged_line(page: &mut Page, verdict: Verdict)
    ensures { Fits page.old (judged_text (verdictOf (Ok verdict))) answer_room page.new }
{
    match verdict {
        Verdict::Yes => page.put(b"yes\n"),
        Verdict::No(state) => {
            page.named(b"no at ", state as u64);
            page.put(b"\n");
        }
    }
}

// The line of the verdict on a table in bytes, for the chain file of which `kept` holds the first bytes and `more` counts the others.
pub fn check(kept: &[u8], more: u64, shares: &[u8], buffer: &mut [u8]) -> Result<usize, Refusal>
    ensures { let f = input kept.now more in
        JudgeReportOutcome f shares.now buffer.old (told result) buffer.new }
{
    if buffer.len() < CHECK_ROOM {
        return Err(Refusal::from(Fault::Room));
    }
    match figures::check(kept, more, shares) {
        Ok(verdict) => {
            let mut page = Page { buffer, at: 0 };
            judged_line(&mut page, verdict);
            Ok(page.at)
        }
        Err(r) => report::answer(Answer::from(r), buffer),
    }
}

// The two lines of a chain file's near chances from its own start or from a number that takes its place, or the line of the refusal. `kept` holds the
// file's first bytes and `more` counts the others.
pub fn near(kept: &[u8], more: u64, from: Option<u64>, buffer: &mut [u8]) -> Result<usize, Refusal>
    ensures { let f = input kept.now more in
        NearReportOutcome f (from_of from) buffer.old (told result) buffer.new }
{
    if buffer.len() < NEAR_ROOM {
        return Err(Refusal::from(Fault::Room));
    }
    match nearfile::near(kept, more, from) {
        Ok(found) => {
            let mut page = Page { buffer, at: 0 };
            found_lines(&mut page, found);
            Ok(page.at)
        }
        Err(r) => report::answer(Answer::from(r), buffer),
    }
}

// The line of a chain file's verdict, or of the refusal. `kept` holds the file's first bytes and `more` counts the others.
pub fn limit(kept: &[u8], more: u64, m: Limit, buffer: &mut [u8]) -> Result<usize, Refusal>
    ensures { let f = input kept.now more in
        LimitReportOutcome f (limitOf m) buffer.old (told result) buffer.new }
{
    if buffer.len() < LIMIT_ROOM {
        return Err(Refusal::from(Fault::Room));
    }
    match limitfile::judge(kept, more, m) {
        Ok(judged) => {
            let mut page = Page { buffer, at: 0 };
            verdict_line(&mut page, judged.verdict, judged.chance);
            Ok(page.at)
        }
        Err(r) => report::answer(Answer::from(r), buffer),
    }
}
