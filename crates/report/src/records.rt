// The lines of a step list.
ghost use Rattle.std.specs.Prelude.{◌≡◌, ◌*◌, ◌≤◌, ◌<◌, length};
ghost use Rattle.meaning.specs.Chain.{most_states};
ghost use Rattle.meaning.specs.Report.{record_text, records_text};
ghost use Rattle.octets.specs.Written.{Written};
ghost use Rattle.text.specs.Page.{Prints};
ghost use Rattle.engines.specs.Trace.{count_in, record_in, records_in};
ghost use Rattle.report.specs.Lines.{record_room};

use crate::print::{count_line, named};
use engines::answer::Trace;
use text::Page;

// Room for any line: names, a byte for its end, and numbers of 64 bits, which have 20 digits.
pub(crate) const RECORD_LINE: usize = (6 + 20) + (6 + 20) + (9 + 20) + (9 + 20) + 1;

fn record_line(page: &mut Page, numbers: &[u64; Trace::NUMBERS], i: usize)
    requires { i < most_states }
    ensures { let r = record_in numbers.now i in
        let text = record_text r.state r.rows r.columns r.divisor in
        Prints page.old text page.new × (length text ≤ record_room) }
{
    let k = Trace::RECORD * i;
    named(page, b"state ", numbers[k + 1]);
    named(page, b" rows ", numbers[k + 2]);
    named(page, b" columns ", numbers[k + 3]);
    count_line(page, b" divisor ", numbers[k + 4]);
}

// A line for each record of a trace, from the front of the buffer on.
pub(crate) fn record_lines(page: &mut Page, numbers: &[u64; Trace::NUMBERS])
    requires { (page.old.at ≡ 0) × (most_states * record_room ≤ length page.old.buffer.now) × (count_in numbers.now ≤ most_states) }
    ensures same { page.new.buffer.ghost_name ≡ page.old.buffer.ghost_name }
    ensures written { Written page.old.buffer.now 0 (records_text (records_in numbers.now)) page.new.buffer.now page.new.at × (page.new.at ≤ most_states * record_room) }
{
    let count = numbers[0] as usize;
    for i in 0..count {
        record_line(page, numbers, i);
    }
}
