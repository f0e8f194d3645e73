// What programs are given: standard input and files, what is kept of them and what is only counted; and words.
#![tactic(auto)]

ghost use Rattle.std.specs.Prelude.{◌+◌, ◌^◌, ◌≤◌, ◌<◌, ◌≡◌, length};
ghost use Rattle.input.specs.Kept.{fitting, pasted};
ghost use Rattle.input.specs.Reads.{so_far, Steps, Reads};
ghost use Rattle.input.specs.Gives.{GivesPart, Gives};

use std::fs;
use std::fs::Files;
use std::io::{Error, ErrorKind, Read};

mod limit_word;
mod word;

pub use limit_word::{LIMIT_BYTES, limit, word_limit};
pub use word::{DIGITS, asks_help, number, word_number, words};

// What one read takes at most, and how many reads there are at most, some 2^63 bytes in all: a proved loop has to end, and nothing says that
// the input does.
const PART: usize = 65536;

const READS: u64 = 140737488355328;

// How many bytes are kept at the front of a buffer, and how many came after them.
#[derive(Clone, Copy)]
pub struct Input {
    pub length: usize,
    pub more: u64,
}

// Keeps as many bytes of a part as there is room for from `at` on, and answers how many.
fn keep(kept: &mut [u8], at: usize, part: &[u8]) -> usize
    requires { at ≤ length kept.old }
    ensures read { result ≡ fitting kept.old at part.now }
    ensures kept_after { kept.new ≡ pasted kept.old at part.now result }
{
    let count = part.len().min(kept.len() - at);
    kept[at..at + count].copy_from_slice(&part[..count]);
    count
}

// Reads on once, and keeps what comes behind what is kept already: None is the end of the input.
fn read_part<R: Read>(file: &mut R, kept: &mut [u8], came: Input) -> Result<Option<Input>, Error>
    requires kept { came.length ≤ length kept.old }
    requires few_more { came.more + 65536 < 2 ^ 64 }
    ensures step { Steps (so_far kept.old came) kept.new result }
    ensures known { GivesPart (R.remaining file.old) (R.remaining file.new) (so_far kept.old came) kept.new result }
{
    let mut part = [0u8; PART];
    let count = file.read(&mut part)?;
    if count == 0 {
        return Ok(None);
    }
    let at = came.length;
    let length = keep(kept, at, &part[..count]);
    Ok(Some(Input {
        length: at + length,
        more: came.more + (count - length) as u64,
    }))
}

// Reads all that a reader gives, such as standard input: the buffer keeps what it has room for, and the rest is counted.
pub fn read<R: Read>(file: &mut R, kept: &mut [u8]) -> Result<Input, Error>
    ensures parts { Reads kept.old kept.new result }
    ensures known { Gives (R.remaining file.old) (R.remaining file.new) kept.old kept.new result }
{
    let mut came = Input { length: 0, more: 0 };
    for _ in 0..READS {
        let Some(next) = read_part(file, kept, came)? else {
            return Ok(came);
        };
        came = next;
    }
    Ok(came)
}

// The file of a name that is text.
fn read_named(rt: &impl Files, name: &str, kept: &mut [u8]) -> Result<Input, Error>
    ensures { Reads kept.old kept.new result }
{
    match fs::open(rt, name) {
        Ok(mut file) => read(&mut file, kept),
        Err(why) if why.kind() == ErrorKind::NotFound => Ok(Input { length: 0, more: 0 }),
        Err(why) => Err(why),
    }
}

// Reads all of the file of that name. A missing file is an empty one; one that is there and cannot be opened is a failure, and so is a name that is no
// text, which the library cannot open.
pub fn read_file(rt: &impl Files, name: &[u8], kept: &mut [u8]) -> Result<Input, Error>
    ensures { Reads kept.old kept.new result }
{
    match str::from_utf8(name) {
        Ok(name) => read_named(rt, name, kept),
        Err(_) => Err(Error::from(ErrorKind::InvalidInput)),
    }
}
