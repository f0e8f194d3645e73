// A line of the test: the outcome, what the work table holds, or a table.
use chain::fraction::Fraction;
use chain::refusal::Refusal;
use engines::answer::{Bounds, Reward};
use std::io::Write;
use survey::Survey;

// Writes a text. What cannot be written is missing in what the test is held to.
pub(crate) fn text(out: &mut impl Write, words: &[u8]) {
    let _ = out.write_all(words);
}

fn decimal(out: &mut impl Write, x: u64) {
    let _ = write!(out, "{x}");
}

pub(crate) fn numbers(out: &mut impl Write, before: &[u8], a: u64, between: &[u8], b: u64) {
    text(out, before);
    decimal(out, a);
    text(out, between);
    decimal(out, b);
}

fn fraction(out: &mut impl Write, before: &[u8], f: Fraction) {
    numbers(out, before, f.numerator, b"/", f.denominator);
}

pub(crate) fn refused(out: &mut impl Write, r: Refusal) {
    numbers(
        out,
        b"refused ",
        u64::from(r.fault.number()),
        b" at ",
        r.place as u64,
    );
}

pub(crate) fn chance(out: &mut impl Write, a: Result<Fraction, Refusal>) {
    text(out, b": chance ");
    match a {
        Ok(f) => fraction(out, b"", f),
        Err(r) => refused(out, r),
    }
}

pub(crate) fn reward(out: &mut impl Write, a: Result<Reward, Refusal>) {
    text(out, b": reward ");
    match a {
        Ok(Reward::Is(f)) => fraction(out, b"", f),
        Ok(Reward::Infinite) => text(out, b"infinite"),
        Err(r) => refused(out, r),
    }
}

pub(crate) fn bounds(out: &mut impl Write, a: Result<Bounds, Refusal>) {
    text(out, b": bounds ");
    match a {
        Ok(bounds) => {
            fraction(out, b"", bounds.lower);
            fraction(out, b" ", bounds.upper);
        }
        Err(r) => refused(out, r),
    }
}

pub(crate) fn survey(out: &mut impl Write, a: Result<Survey, Refusal>) {
    text(out, b": survey ");
    match a {
        Ok(found) => numbers(
            out,
            b"goals ",
            u64::from(found.goals),
            b" live ",
            u64::from(found.live),
        ),
        Err(r) => refused(out, r),
    }
    text(out, b"\n");
}

fn cell(out: &mut impl Write, x: u64) {
    text(out, b" ");
    decimal(out, x);
}

// The numbers of a table.
pub(crate) fn row(out: &mut impl Write, name: &[u8], table: &[u64]) {
    text(out, name);
    for x in table {
        cell(out, *x);
    }
    text(out, b"\n");
}
