// The line of a verdict on a limit.
ghost use Rattle.meaning.specs.NearText.{near_line};
ghost use Rattle.meaning.specs.FileLimit.{verdict_text, limit_room};
ghost use Rattle.near.specs.Answer.{told_between};
ghost use Rattle.limitfile.specs.Told.{told_verdict};
ghost use Rattle.lines.specs.Widths.{Fits};

use crate::two_figures::{FIGURES, line};
use limitfile::Verdict;
use near::answer::Between;
use text::Page;

// Room for any such line, and with it for that of any refusal.
pub const LIMIT_ROOM: usize = 7 + FIGURES;

// The verdict, and the figures that it goes by.
pub(crate) fn verdict_line(page: &mut Page, verdict: Verdict, chance: Between)
    ensures { let text = near_line (verdict_text (told_verdict verdict)) (told_between chance) in
        Fits page.old text limit_room page.new }
{
    let lower = decimals::lower(chance.lower, chance.twos);
    let upper = decimals::upper(chance.upper, chance.twos);
    match verdict {
        Verdict::Kept => line(page, b"kept ", lower, upper),
        Verdict::Broken => line(page, b"broken ", lower, upper),
        Verdict::Open => line(page, b"open ", lower, upper),
    }
}
