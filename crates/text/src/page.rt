// A lent buffer and the place where the next piece goes. Where there is no room for a piece, the buffer stays and so does the place.
ghost use Rattle.std.specs.Prelude.{[], ◌∷◌, ◌+◌, ◌<◌, length};
ghost use Rattle.meaning.specs.Number.{decides};
ghost use Rattle.meaning.specs.Text.{decimal};
ghost use Rattle.octets.specs.Written.{Room};
ghost use Rattle.text.specs.Page.{Adds, Names, Prints};

use crate::{DIGITS, digits};

#[derive(Drop)]
pub struct Page<'a> {
    pub buffer: &'a mut [u8],
    pub at: usize,
}

impl Page<'_> {
    // There is no room for so many bytes.
    pub(crate) fn lacks(&self, long: usize) -> bool
        ensures { decides (length self.now.buffer.now < self.now.at + long) result }
    {
        self.buffer.len() < self.at || self.buffer.len() - self.at < long
    }

    // A piece, where there is room for it.
    fn copy(&mut self, piece: &[u8])
        requires { Room self.old.buffer.now self.old.at piece.now }
        ensures { Adds self.old piece.now self.new }
    {
        let end = self.at + piece.len();
        self.buffer[self.at..end].copy_from_slice(piece);
        self.at = end;
    }

    pub fn put(&mut self, piece: &[u8])
        ensures { Adds self.old piece.now self.new }
    {
        if !self.lacks(piece.len()) {
            self.copy(piece);
        }
    }

    // One digit, where there is room for it.
    fn digit(&mut self, x: u64)
        requires { (x < 10) × (self.old.at < length self.old.buffer.now) }
        ensures { Prints self.old ((48 + x) ∷ []) self.new }
    {
        let at = self.at;
        self.buffer[at] = b'0' + x as u8;
        self.at = at + 1;
    }

    // The digits of x / 10, and then the last digit, where there is room for all of them: it is not asked for again at each.
    fn decimal(&mut self, x: u64)
        requires { Room self.old.buffer.now self.old.at (decimal x) }
        ensures { Prints self.old (decimal x) self.new }
    {
        if x < 10 {
            return self.digit(x);
        }
        self.decimal(x / 10);
        self.digit(x % 10);
    }

    // A number in decimal.
    pub fn number(&mut self, x: u64)
        ensures { Adds self.old (decimal x) self.new }
    {
        if !self.lacks(digits(x)) {
            self.decimal(x);
        }
    }

    // A number after its name, where there is room for any number.
    pub fn named(&mut self, name: &[u8], x: u64)
        ensures { Names self.old name.now x self.new }
    {
        if !self.lacks(name.len() + DIGITS) {
            self.copy(name);
            self.decimal(x);
        }
    }
}
