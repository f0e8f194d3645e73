// Fractions, and the line of two.
ghost use Rattle.std.specs.Prelude.{◌≡◌, ◌≤◌, length};
ghost use Rattle.meaning.specs.Outcome.{between};
ghost use Rattle.meaning.specs.Text.{bytes_of};
ghost use Rattle.meaning.specs.Report.{fraction_text, bounds_text, line_text};
ghost use Rattle.text.specs.Page.{Adds, Prints};

use crate::digits;
use crate::page::Page;

// How long a fraction is.
fn width(p: u64, q: u64) -> usize
    ensures { (result ≡ length (fraction_text p q)) × (result ≤ 41) }
{
    digits(p) + 1 + digits(q)
}

impl Page<'_> {
    fn parts(&mut self, p: u64, q: u64)
        ensures { Prints self.old (fraction_text p q) self.new }
    {
        self.number(p);
        self.put(b"/");
        self.number(q);
    }

    pub fn fraction(&mut self, p: u64, q: u64)
        ensures { Adds self.old (fraction_text p q) self.new }
    {
        if !self.lacks(width(p, q)) {
            self.parts(p, q);
        }
    }

    fn both(&mut self, p: u64, q: u64, s: u64, t: u64)
        ensures { Prints self.old (bounds_text (between p q s t)) self.new }
    {
        self.fraction(p, q);
        self.put(b" ");
        self.fraction(s, t);
    }

    fn line(&mut self, p: u64, q: u64, s: u64, t: u64)
        ensures { Prints self.old (line_text (bytes_of "bounds ") (bounds_text (between p q s t))) self.new }
    {
        self.put(b"bounds ");
        self.both(p, q, s, t);
        self.put(b"\n");
    }

    // The line of the bounds p / q and s / t.
    pub fn bounds_line(&mut self, p: u64, q: u64, s: u64, t: u64)
        ensures { Adds self.old (line_text (bytes_of "bounds ") (bounds_text (between p q s t))) self.new }
    {
        if !self.lacks(7 + width(p, q) + 1 + width(s, t) + 1) {
            self.line(p, q, s, t);
        }
    }
}
