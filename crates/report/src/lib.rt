// The report of a chain file, its step list as a text, the line of a face of the dice, and the line of an answer alone: each at the front of a lent
// buffer, and its length is answered, or that the buffer has too little room. Of a file `kept` holds the first bytes and `more` counts the others.
#![tactic(auto)]

ghost use Rattle.std.specs.Prelude.{◌≤◌, ◌≡◌, length, MatchResult};
ghost use Rattle.meaning.specs.Report.{report_room, Report, ReportOutcome, steps_room, StepsReport, StepsReportOutcome, FaceOutcome, AnswerOutcome};
ghost use Rattle.chain.specs.Refusal.{number_of};
ghost use Rattle.chainfile.specs.Input.{input};
ghost use Rattle.figures.specs.Told.{told_answer};
ghost use Rattle.report.specs.Stands.{Stands, Writes, told};
ghost use Rattle.report.specs.Lines.{Lasts, Ends};

use chain::Chain;
use chain::refusal::{Fault, Refusal};
use text::Page;

mod print;
mod records;

pub use figures::Answer;
pub use print::{ANSWER_ROOM, BOUNDS_LINE, FACE_ROOM, REPORT_ROOM, STEPS_ROOM};

// A refusal ends a report with a single line; but 12 stands in its own line, in place of the fraction: then nothing is ended.
fn ended<T: Copy>(answer: Result<T, Refusal>) -> Result<(), Refusal>
    ensures { MatchResult result (λ _. Lasts answer) (λ r. (answer ≡ Err r) × Ends (number_of r.fault)) }
{
    match answer {
        Err(r) if print::ends(r.fault.number()) => Err(r),
        _ => Ok(()),
    }
}

// The seven lines. What the reader refuses ends the report, and what the entry for the reward refuses by 1 to 11; what the other entries could
// refuse so, that entry refuses too.
fn file_lines(kept: &[u8], more: u64, buffer: &mut [u8]) -> Result<usize, Refusal>
    requires { report_room ≤ length buffer.old }
    ensures { Writes (Report (input kept.now more)) buffer.old result buffer.new }
{
    let found = figures::report(kept, more)?;
    ended(found.reward)?;
    let bounds = found.bounds?;
    let mut page = Page { buffer, at: 0 };
    print::seven_lines(&mut page, found, bounds);
    Ok(page.at)
}

pub fn report(kept: &[u8], more: u64, buffer: &mut [u8]) -> Result<usize, Refusal>
    ensures { ReportOutcome (input kept.now more) buffer.old (told result) buffer.new }
{
    if buffer.len() < print::REPORT_ROOM {
        return Err(Refusal::from(Fault::Room));
    }
    match file_lines(kept, more, buffer) {
        Ok(n) => Ok(n),
        Err(r) => answer(Answer::from(r), buffer),
    }
}

// A line for each record and then the chance, with room for the records of the largest chain.
fn steps_lines(kept: &[u8], more: u64, buffer: &mut [u8]) -> Result<usize, Refusal>
    requires { steps_room ≤ length buffer.old }
    ensures { Writes (StepsReport (input kept.now more)) buffer.old result buffer.new }
{
    let t = figures::steps(kept, more, Chain::STATES);
    ended(t.chance)?;
    let numbers = t.numbers;
    let mut page = Page { buffer, at: 0 };
    records::record_lines(&mut page, &numbers);
    print::answer_line(&mut page, b"chance ", Answer::from(t.chance));
    Ok(page.at)
}

// The step list and the chance of a chain file, in the same way.
pub fn steps(kept: &[u8], more: u64, buffer: &mut [u8]) -> Result<usize, Refusal>
    ensures { StepsReportOutcome (input kept.now more) buffer.old (told result) buffer.new }
{
    if buffer.len() < print::STEPS_ROOM {
        return Err(Refusal::from(Fault::Room));
    }
    match steps_lines(kept, more, buffer) {
        Ok(n) => Ok(n),
        Err(r) => answer(Answer::from(r), buffer),
    }
}

// The line of a face of the dice, with its chance or why there is none.
pub fn face(face: u64, chance: Answer, buffer: &mut [u8]) -> Result<usize, Refusal>
    ensures { FaceOutcome face (told_answer chance) buffer.old (told result) buffer.new }
{
    if buffer.len() < print::FACE_ROOM {
        return Err(Refusal::from(Fault::Room));
    }
    let mut page = Page { buffer, at: 0 };
    print::face_line(&mut page, face, chance);
    Ok(page.at)
}

// The line of an answer alone.
pub fn answer(a: Answer, buffer: &mut [u8]) -> Result<usize, Refusal>
    ensures { AnswerOutcome (told_answer a) buffer.old (told result) buffer.new }
{
    if buffer.len() < print::ANSWER_ROOM {
        return Err(Refusal::from(Fault::Room));
    }
    let mut page = Page { buffer, at: 0 };
    print::answer_line(&mut page, b"", a);
    Ok(page.at)
}
