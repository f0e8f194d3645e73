// The lines of what is left of a file, from pieces. Where there is room for the line, it is written.
ghost use Rattle.std.specs.Prelude.{◌++◌, ◌≤◌, length};
ghost use Rattle.meaning.specs.Text.{bytes_of, decimal};
ghost use Rattle.text.specs.Page.{Prints};
ghost use Rattle.engines.specs.Answer.{told_bounds};
ghost use Rattle.salvaging.specs.Lines.{bounds_line, number_text, numbers_text, left_text};

use chain::Chain;
use engines::answer::Bounds;
use octets::layout;
use report::BOUNDS_LINE;
use text::Page;

// Each line at its longest, that of the bounds as in the report, and how many lines there are: a file has so many edge blocks.
const LOST_LINE: usize = 5 + 2 + 1 + 2 + 1;

const SHORT_LINE: usize = 6 + 2 + 1 + 10 + 1;

const EDGE_BLOCKS: usize = (Chain::EDGES + layout::FULL - 1) / layout::FULL;

// Room for any text.
pub const ROOM: usize = BOUNDS_LINE + EDGE_BLOCKS * LOST_LINE + Chain::STATES * SHORT_LINE;

// The line of the bounds, whose numbers have at most 20 digits each.
pub(crate) fn bounds_line(page: &mut Page, bounds: Bounds)
    ensures { let text = bounds_line (told_bounds (Ok bounds)) in
        Prints page.old text page.new × (length text ≤ 91) }
{
    let Bounds { lower, upper } = bounds;
    page.bounds_line(
        lower.numerator,
        lower.denominator,
        upper.numerator,
        upper.denominator,
    );
}

fn pair(page: &mut Page, i: u64, x: u64)
    ensures { Prints page.old (decimal i ++ bytes_of " " ++ decimal x) page.new }
{
    page.number(i);
    page.put(b" ");
    page.number(x);
}

// The line of number x at place i of a table. There is none for 0.
fn number_line(page: &mut Page, word: &[u8], i: usize, x: u64)
    ensures { Prints page.old (number_text word.now i x) page.new }
{
    if x != 0 {
        page.put(word);
        pair(page, i as u64, x);
        page.put(b"\n");
    }
}

// Those of a table.
fn number_lines(page: &mut Page, word: &[u8], numbers: &[u64])
    ensures { let n = numbers.now in
        Prints page.old (numbers_text word.now n (length n)) page.new }
{
    for (i, x) in numbers.iter().enumerate() {
        number_line(page, word, i, *x);
    }
}

// The bounds, the lost blocks and the rows that fell short.
pub(crate) fn left_lines(page: &mut Page, bounds: Bounds, lost: &[u64], short: &[u64])
    ensures { Prints page.old (left_text (told_bounds (Ok bounds)) lost.now short.now) page.new }
{
    bounds_line(page, bounds);
    number_lines(page, b"lost ", lost);
    number_lines(page, b"short ", short);
}
