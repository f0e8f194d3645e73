// The two lines of near chances.
ghost use Rattle.std.specs.Prelude.{◌++◌};
ghost use Rattle.meaning.specs.Text.{bytes_of};
ghost use Rattle.meaning.specs.NearText.{figures_text, near_text, near_room};
ghost use Rattle.decimals.specs.Told.{told};
ghost use Rattle.near.specs.Answer.{told_between};
ghost use Rattle.lines.specs.Widths.{Fits};

use crate::two_figures::{FIGURES, line};
use decimals::Figure;
use near::answer::Figures;
use text::Page;

// Room for any two lines, and with it for that of any refusal.
pub const NEAR_ROOM: usize = 2 * (5 + FIGURES);

// The line of a chance, from `lower` and `upper`, and that of missing, from `low` and `high`.
fn near_lines(page: &mut Page, lower: Figure, upper: Figure, low: Figure, high: Figure)
    ensures { let near = figures_text (bytes_of "near ") (told lower) (told upper) in
        let miss = figures_text (bytes_of "miss ") (told low) (told high) in
        Fits page.old (near ++ miss) near_room page.new }
{
    line(page, b"near ", lower, upper);
    line(page, b"miss ", low, high);
}

// The two lines of what was found.
pub(crate) fn found_lines(page: &mut Page, found: Figures)
    ensures { let text = near_text (told_between found.chance) (told_between found.miss) in
        Fits page.old text near_room page.new }
{
    let chance = found.chance;
    let miss = found.miss;
    let lower = decimals::lower(chance.lower, chance.twos);
    let upper = decimals::upper(chance.upper, chance.twos);
    let low = decimals::lower(miss.lower, miss.twos);
    let high = decimals::upper(miss.upper, miss.twos);
    near_lines(page, lower, upper, low, high);
}
