// What stands in a line from a place on.
ghost use Rattle.std.specs.Prelude.{◌≤◌, [], ◌≡◌, length};
ghost use Rattle.chaintext.specs.Pieces.{WordRead, NumberRead, ended};

// The greatest number of 32 bits: no field of a chain file holds a greater one.
pub(crate) const MOST: u64 = 4294967295;

// The place after a word that stands there.
pub(crate) fn word(line: &[u8], at: usize, word: &[u8]) -> Option<usize>
    requires { at ≤ length line.now }
    ensures { WordRead line.now at word.now result }
{
    if line[at..].starts_with(word) {
        Some(at + word.len())
    } else {
        None
    }
}

// A number that begins at a place and ends at another, with the place after it.
fn ending(at: usize, end: usize, value: u64) -> Option<(u64, usize)>
    ensures { result ≡ ended at end value }
{
    if end == at { None } else { Some((value, end)) }
}

// A number of at most the limit that stands there, up to a byte that is no digit or to the line's end, with the place after it. It has no zero in
// front of other digits.
pub(crate) fn number(line: &[u8], at: usize, limit: u64) -> Option<(u64, usize)>
    requires { limit ≤ 4294967295 }
    ensures { NumberRead line.now at [] limit result }
{
    let mut x = 0;
    for i in at..line.len() {
        let b = line[i];
        if !b.is_ascii_digit() {
            return ending(at, i, x);
        }
        if x == 0 && at < i {
            return None;
        }
        let more = x * 10 + u64::from(b - b'0');
        if limit < more {
            return None;
        }
        x = more;
    }
    ending(at, line.len().max(at), x)
}

// A number after its name.
pub(crate) fn named(line: &[u8], at: usize, name: &[u8], limit: u64) -> Option<(u64, usize)>
    requires { (at ≤ length line.now) × (limit ≤ 4294967295) }
    ensures { NumberRead line.now at name.now limit result }
{
    number(line, word(line, at, name)?, limit)
}
