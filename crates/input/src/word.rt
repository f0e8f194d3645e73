// Words of the command line: how many there are, whether they ask for help, and what they say as numbers.
ghost use Rattle.std.specs.Prelude.{◌≡◌, ◌+◌, ◌*◌, ◌^◌, ◌≤◌, length, MatchOption};
ghost use Rattle.meaning.specs.Text.{WordOutcome};
ghost use Rattle.input.specs.Digit.{Digit};

use std::env::{Env, FillError};

// The most digits of a number of 64 bits.
pub const DIGITS: usize = 20;

// The length of `--help`.
const HELP: usize = 6;

// The digit that a byte stands for.
pub(crate) fn digit(byte: u8) -> Option<u64>
    ensures { Digit byte result }
{
    match byte {
        b'0'..=b'9' => Some(u64::from(byte - b'0')),
        _ => None,
    }
}

// A number with one digit more behind, where that has 64 bits.
fn pushed(x: u64, d: u64) -> Option<u64>
    ensures { MatchOption result (2 ^ 64 ≤ x * 10 + d) (λ next. next ≡ x * 10 + d) }
{
    x.checked_mul(10)?.checked_add(d)
}

// The number that a word says in decimal, or what the caller gives for a word that says none.
pub fn number(word: &[u8], otherwise: u64) -> u64
    ensures { WordOutcome otherwise word.now result }
{
    if word.is_empty() || DIGITS < word.len() {
        return otherwise;
    }
    let mut x = 0;
    for byte in word {
        let Some(d) = digit(*byte) else {
            return otherwise;
        };
        let Some(next) = pushed(x, d) else {
            return otherwise;
        };
        x = next;
    }
    x
}

// Whether the program has a word i. One that has no room is there all the same.
fn is_there(rt: &impl Env, i: usize) -> bool {
    !matches!(rt.arg(i, &mut []), Err(FillError::NotPresent))
}

// How many words follow the program's name.
pub fn words(rt: &impl Env) -> usize {
    for count in 0..usize::MAX {
        if !is_there(rt, count + 1) {
            return count;
        }
    }
    usize::MAX
}

// Copies word i to the front of a buffer, and answers its length: 0 where it is missing or too long.
pub(crate) fn copy(rt: &impl Env, i: usize, word: &mut [u8]) -> usize
    ensures within { result ≤ length word.new }
    ensures same { length word.new ≡ length word.old }
{
    rt.arg(i, word).unwrap_or(0)
}

// Whether `--help` is the only word.
pub fn asks_help(rt: &impl Env) -> bool {
    if words(rt) != 1 {
        return false;
    }
    let mut word = [0u8; HELP];
    let length = copy(rt, 1, &mut word);
    &word[..length] == b"--help".as_slice()
}

// What word i says as a number, or what the caller gives where it is missing or says none.
pub fn word_number(rt: &impl Env, i: usize, otherwise: u64) -> u64 {
    let mut word = [0u8; DIGITS];
    let length = copy(rt, i, &mut word);
    number(&word[..length], otherwise)
}
