// What a word says as a limit: digits, perhaps a point and digits, perhaps `e-` and one to three digits.
ghost use Rattle.std.specs.Prelude.{◌≡◌, ℕ, ◌+◌, ◌-◌, ◌*◌, ◌≤◌, length};
ghost use Rattle.meaning.specs.Limit.{LimitWord};
ghost use Rattle.limit.specs.Told.{told};
ghost use Rattle.input.specs.Run.{past, Capped, ReadRun, Middle, TensOf};

use crate::word::{copy, digit};
use limit::Limit;
use std::env::Env;

// The most bytes of a limit's word.
pub const LIMIT_BYTES: usize = 40;

// What stands for any number that is too large for a limit's digits or tens.
const PAST: u64 = limit::SAID + 1;

// What is read up to the end of a run of digits, which is the place after it.
#[derive(Clone, Copy)]
struct Run {
    number: u64,
    end: usize,
}

// A number with one digit more behind.
fn pushed(number: u64, d: u64) -> u64
    requires { (number ≤ past) × (d ≤ 9) }
    ensures { (z : ℕ) → Capped number z → Capped result (z * 10 + d) }
{
    (number * 10 + d).min(PAST)
}

// Reads the digits from a place on behind those of x.
fn read_run(word: &[u8], begin: usize, x: u64) -> Run
    requires { (begin ≤ length word.now) × (x ≤ past) }
    ensures { ReadRun word.now begin x result }
{
    let mut number = x;
    for end in begin..word.len() {
        let Some(d) = digit(word[end]) else {
            return Run { number, end };
        };
        number = pushed(number, d);
    }
    Run {
        number,
        end: word.len(),
    }
}

// Where a point stands after the first digits, reads on behind it.
fn middle(word: &[u8], whole: Run) -> Run
    requires { (whole.end ≤ length word.now) × (whole.number ≤ past) }
    ensures { Middle word.now whole result }
{
    let point = whole.end;
    if word.len() <= point || word[point] != b'.' {
        return whole;
    }
    read_run(word, point + 1, whole.number)
}

// What the word says from the mark on: nothing, or `e-` and its digits.
fn tens(word: &[u8], mark: usize) -> u64
    requires { mark ≤ length word.now }
    ensures { TensOf word.now mark result }
{
    let left = word.len() - mark;
    if left == 0 {
        return 0;
    }
    if left < 3 || 5 < left || word[mark] != b'e' || word[mark + 1] != b'-' {
        return PAST;
    }
    let last = read_run(word, mark + 2, 0);
    if last.end < word.len() {
        return PAST;
    }
    last.number
}

// How many digits stand after the point.
fn after_point(point: usize, mark: usize) -> u64
    ensures { result ≡ mark - (point + 1) }
{
    mark.saturating_sub(point).saturating_sub(1) as u64
}

// The limit that a word says, or none.
pub fn limit(word: &[u8]) -> Limit
    ensures { LimitWord word.now (told result) }
{
    if LIMIT_BYTES < word.len() {
        return limit::NONE;
    }
    let whole = read_run(word, 0, 0);
    let point = whole.end;
    if point == 0 {
        return limit::NONE;
    }
    let all = middle(word, whole);
    let mark = all.end;
    if mark == point + 1 {
        return limit::NONE;
    }
    let m = Limit {
        digits: all.number,
        tens: after_point(point, mark) + tens(word, mark),
    };
    if limit::sound(m) {
        return m;
    }
    limit::NONE
}

// The limit that word i says; none where it is missing. A word that is too long is taken as an empty one.
pub fn word_limit(rt: &impl Env, i: usize) -> Limit {
    let mut word = [0u8; LIMIT_BYTES];
    let length = copy(rt, i, &mut word);
    limit(&word[..length])
}
