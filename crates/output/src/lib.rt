// What programs write: what was asked for on standard output, words for people on standard error.
#![tactic(auto)]

ghost use Rattle.std.specs.Prelude.{IsTrue};
ghost use Rattle.std.specs.Io.KnownBytes.{Appends};

use figures::Answer;
use std::io::{Cursor, Error, Write};

// Writes a text and answers whether all of it was written. Where it was not, people get a line of what the caller names and why.
pub fn print<W: Write, P: Write>(out: &mut W, people: &mut P, text: &[u8], what: &[u8]) -> bool
    ensures { IsTrue result → Appends (W.contents out.old) (W.contents out.new) text.now }
{
    match out.write_all(text) {
        Ok(()) => true,
        Err(why) => {
            fail(people, what, why);
            false
        }
    }
}

// Writes a text for people. Where that fails too, there is no place left to say so.
pub fn tell<P: Write>(people: &mut P, text: &[u8]) {
    let _ = people.write_all(text);
}

// The most bytes of an error's text.
const TEXT: usize = 320;

// An error's text without the system's number, which the library puts behind the words, as in `Is a directory (os error 21)`.
fn words(text: &[u8]) -> &str {
    let text = str::from_utf8(text).unwrap_or("");
    match text.rsplit_once(" (os error ") {
        Some((words, _)) => words,
        None => text,
    }
}

// Writes a line for people: what failed, as the caller names it, and why.
pub fn fail<P: Write>(people: &mut P, what: &[u8], why: Error) {
    let mut spelled = Cursor::new([0u8; TEXT]);
    let _ = write!(spelled, "{why}");
    let length = spelled.position();
    let text = spelled.into_inner();
    tell(people, what);
    tell(people, b": ");
    tell(people, words(&text[..TEXT.min(length as usize)]).as_bytes());
    tell(people, b"\n");
}

// Writes the line of a refusal for people, for programs whose standard output is a file.
pub fn complain<P: Write>(people: &mut P, number: u32, place: usize) {
    let mut line = [0u8; report::ANSWER_ROOM];
    if let Ok(n) = report::answer(Answer::refusal(number, place), &mut line) {
        tell(people, &line[..n]);
    }
}
