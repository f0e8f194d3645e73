// The line of a plan: a word, its copies and its near figures.
ghost use Rattle.meaning.specs.Copies.{Sensible};
ghost use Rattle.meaning.specs.PlanTable.{copies_line};
ghost use Rattle.lines.specs.Widths.{Fits};
ghost use Rattle.copies.specs.Told.{told_plan};
ghost use Rattle.planning.specs.Line.{chance_of, line_width};

use crate::asked::near;
use copies::Plan;
use decimals::Figure;
use lines::figures_line;
use text::Page;

pub(crate) fn plan_line(page: &mut Page, word: &[u8], plan: Plan)
    requires { Sensible (told_plan plan) }
    ensures { let w = word.now in
        let text = copies_line w plan.copies (chance_of (told_plan plan)) in
        Fits page.old text (line_width w) page.new }
{
    let nearness = near(plan);
    let around = nearness.near;
    let lower = Figure {
        digits: around.lower_digits,
        tens: around.lower_tens,
    };
    let upper = Figure {
        digits: around.upper_digits,
        tens: around.upper_tens,
    };
    page.named(word, plan.copies);
    figures_line(page, b" ", lower, upper);
}
