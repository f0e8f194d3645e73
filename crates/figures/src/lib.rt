// The figures of the chain in a file, its step list, its chance within so many steps, and what is said of a table that is sent for it. Each file is
// one of which `kept` holds the first bytes and `more` counts the others.
#![tactic(auto)]

ghost use Rattle.meaning.specs.Judge.{FileJudged};
ghost use Rattle.meaning.specs.Within.{FileWithin};
ghost use Rattle.chainfile.specs.Input.{input};
ghost use Rattle.engines.specs.Answer.{told_chance, told_bounds};
ghost use Rattle.equations.specs.Told.{told as told_parts};
ghost use Rattle.equations.specs.Judge.{told as told_verdict};
ghost use Rattle.figures.specs.Found.{FileChance, FileBounds, FileReported};
ghost use Rattle.figures.specs.Traced.{FileTraced};

use chain::fraction::Fraction;
use chain::refusal::{Fault, Refusal};
use engines::answer::{Bounds, Trace};
use engines::entry;
use equations::Verdict;

mod answer;
mod found;
mod listing;
mod shares;

pub use answer::{Answer, Counts, Report};

// The exact chance.
pub fn chance(kept: &[u8], more: u64) -> Result<Fraction, Refusal>
    ensures { FileChance (input kept.now more) (told_chance result) }
{
    opening::with(
        kept,
        more,
        &mut |opened| { entry::chance_unlent(&opened.given, opened.order) },
    )
}

pub fn bounds(kept: &[u8], more: u64) -> Result<Bounds, Refusal>
    ensures { FileBounds (input kept.now more) (told_bounds result) }
{
    opening::with(
        kept,
        more,
        &mut |opened| { entry::bounds_unlent(&opened.given, opened.order) },
    )
}

// All that its report tells.
pub fn report(kept: &[u8], more: u64) -> Result<Report, Refusal>
    ensures { FileReported (input kept.now more) result }
{
    opening::with(kept, more, &mut |opened| Ok(found::report(opened)))
}

// Its chance and its step list by value, for a caller who has room for so many records.
pub fn steps(kept: &[u8], more: u64, list: usize) -> Trace
    ensures { FileTraced (input kept.now more) list result }
{
    match opening::with(kept, more, &mut |opened| Ok(listing::trace(opened, list))) {
        Ok(trace) => trace,
        Err(r) => listing::no_trace(r),
    }
}

// Its chance within so many steps. Of what is wrong with the steps and with the file, the steps are told.
pub fn within(kept: &[u8], more: u64, steps: u64) -> Result<u64, Refusal>
    ensures { FileWithin (input kept.now more) steps (told_parts result) }
{
    if equations::STEPS < steps {
        return Err(Refusal::from(Fault::Steps));
    }
    opening::with(
        kept,
        more,
        &mut |opened| { equations::within(&opened.given, steps) },
    )
}

// Whether a table in bytes is the chance at every state of its chain.
pub fn check(kept: &[u8], more: u64, shares: &[u8]) -> Result<Verdict, Refusal>
    ensures { FileJudged (input kept.now more) shares.now (told_verdict result) }
{
    opening::with(kept, more, &mut |opened| shares::judged(opened, shares))
}
