// A figure as it is printed, and a line of two, for the crates above. Where there is no room for any such line, the buffer stays and so does the
// place.
ghost use Rattle.std.specs.Prelude.{◌≡◌, ◌++◌, ◌+◌, ◌-◌, ◌%◌, length};
ghost use Rattle.meaning.specs.Text.{bytes_of};
ghost use Rattle.meaning.specs.NearText.{last_digits, figure_text, figures_text};
ghost use Rattle.decimals.specs.Told.{told};
ghost use Rattle.lines.specs.Widths.{figure_width, figures_width, Figured, Fits};

use decimals::Figure;
use text::{DIGITS, Page};

// Room for any figure: its first number, a point with five digits, `e-` and its tens.
const FIGURE: usize = DIGITS + 6 + (2 + DIGITS);

// Room for what stands after the word in any line.
pub(crate) const FIGURES: usize = FIGURE + (1 + FIGURE) + 1;

// The last decimal digit of a number, as a byte.
fn digit(x: u32) -> u8
    ensures { result ≡ 48 + x % 10 }
{
    (48 + x % 10) as u8
}

// A point and the last five digits of a number.
fn five_digits(x: u32) -> [u8; 6]
    ensures { result ≡ bytes_of "." ++ last_digits 5 x }
{
    [
        b'.',
        digit(x / 10000),
        digit(x / 1000),
        digit(x / 100),
        digit(x / 10),
        digit(x),
    ]
}

// What stands after `e-`.
fn exponent(tens: u32) -> u64
    ensures { result ≡ tens - 5 }
{
    u64::from(tens.saturating_sub(5))
}

// A figure after a word.
fn figure(page: &mut Page, word: &[u8], f: Figure)
    ensures { let w = word.now in
        Fits page.old (w ++ figure_text (told f)) (length w + figure_width) page.new }
{
    if f.digits < 10 {
        return page.named(word, u64::from(f.digits));
    }
    page.named(word, u64::from(f.digits / 100000));
    page.put(&five_digits(f.digits));
    page.named(b"e-", exponent(f.tens));
}

// A line of two figures.
pub(crate) fn line(page: &mut Page, word: &[u8], lower: Figure, upper: Figure)
    ensures { let w = word.now in
        Fits page.old (figures_text w (told lower) (told upper)) (figures_width w) page.new }
{
    figure(page, word, lower);
    figure(page, b" ", upper);
    page.put(b"\n");
}

// The same wherever it is asked for: where there is not the room that any such line needs, nothing is written.
pub fn figures_line(page: &mut Page, word: &[u8], lower: Figure, upper: Figure)
    ensures { Figured page.old word.now (told lower) (told upper) page.new }
{
    if page.buffer.len().saturating_sub(page.at) >= word.len() + FIGURES {
        line(page, word, lower, upper);
    }
}
