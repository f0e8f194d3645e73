// The lines of the report, from pieces. Where there is room for the line, it is written.
ghost use Rattle.meaning.specs.Text.{decimal};
ghost use Rattle.meaning.specs.Report.{refused_text, answer_text, named_text, line_text, face_text};
ghost use Rattle.meaning.specs.Number.{decides};
ghost use Rattle.text.specs.Page.{Prints};
ghost use Rattle.figures.specs.Told.{told_answer};
ghost use Rattle.report.specs.Lines.{told_lines, counts_text, Ends};

use crate::records::RECORD_LINE;
use chain::Chain;
use engines::answer::Bounds;
use figures::{Answer, Counts, Report};
use text::Page;

// Room for any report, each line at its longest: a line has a name, what stands in it, and a byte for its end.
const FRACTION: usize = 10 + 1 + 10;

const COUNT_LINES: usize = (7 + 2 + 1) + (6 + 4 + 1) + (6 + 2 + 1) + (5 + 2 + 1);

const ANSWER_LINE: usize = 7 + FRACTION + 1;

pub const BOUNDS_LINE: usize = 7 + FRACTION + 1 + FRACTION + 1;

// What stands in the line of an exact figure, whatever its numbers are: a number of 64 bits has 20 digits.
const ANSWER: usize = 8 + 10 + 4 + 20;

// Room for any line of an answer alone, and of a face.
pub const ANSWER_ROOM: usize = ANSWER + 1;

pub const FACE_ROOM: usize = 5 + 20 + 1 + ANSWER_ROOM;

pub const REPORT_ROOM: usize = COUNT_LINES + 2 * ANSWER_LINE + BOUNDS_LINE;

// Room for any step list, and the line of its chance.
pub const STEPS_ROOM: usize = Chain::STATES * RECORD_LINE + (7 + ANSWER + 1);

// The numbers of refusal that end the report with a single line.
pub(crate) fn ends(number: u32) -> bool
    ensures { decides (Ends number) result }
{
    match number {
        1..=11 | 20..=24 => true,
        _ => false,
    }
}

fn refused(page: &mut Page, code: u32, place: usize)
    ensures { Prints page.old (refused_text code place) page.new }
{
    page.put(b"refused ");
    page.number(u64::from(code));
    page.put(b" at ");
    page.number(place as u64);
}

fn answer(page: &mut Page, a: Answer)
    ensures { Prints page.old (answer_text (told_answer a)) page.new }
{
    if a.number != 0 {
        return refused(page, a.number, a.place);
    }
    if a.denominator == 0 {
        return page.put(b"infinite");
    }
    page.fraction(a.numerator, a.denominator)
}

pub(crate) fn named(page: &mut Page, name: &[u8], x: u64)
    ensures { Prints page.old (named_text name.now x) page.new }
{
    page.put(name);
    page.number(x);
}

pub(crate) fn count_line(page: &mut Page, name: &[u8], x: u64)
    ensures { Prints page.old (line_text name.now (decimal x)) page.new }
{
    named(page, name, x);
    page.put(b"\n");
}

pub(crate) fn answer_line(page: &mut Page, name: &[u8], a: Answer)
    ensures { Prints page.old (line_text name.now (answer_text (told_answer a))) page.new }
{
    page.put(name);
    answer(page, a);
    page.put(b"\n");
}

fn count_lines(page: &mut Page, counts: Counts)
    ensures { Prints page.old (counts_text counts) page.new }
{
    count_line(page, b"states ", counts.states);
    count_line(page, b"edges ", counts.edges);
    count_line(page, b"goals ", counts.goals);
    count_line(page, b"live ", counts.live);
}

// The seven lines.
pub(crate) fn seven_lines(page: &mut Page, found: Report, bounds: Bounds)
    ensures { Prints page.old (told_lines found bounds) page.new }
{
    let Bounds { lower, upper } = bounds;
    count_lines(page, found.counts);
    answer_line(page, b"chance ", Answer::from(found.chance));
    answer_line(page, b"reward ", Answer::from(found.reward));
    page.bounds_line(
        lower.numerator,
        lower.denominator,
        upper.numerator,
        upper.denominator,
    );
}

// The line of a face of the dice.
pub(crate) fn face_line(page: &mut Page, face: u64, chance: Answer)
    ensures { Prints page.old (face_text face (told_answer chance)) page.new }
{
    page.put(b"face ");
    page.number(face);
    page.put(b" ");
    answer(page, chance);
    page.put(b"\n");
}
