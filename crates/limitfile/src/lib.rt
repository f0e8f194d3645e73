// Is the chance of the chain in a file within a limit.
#![tactic(auto)]

ghost use Rattle.std.specs.Prelude.{◌≡◌, ◌≤◌, IfOk};
ghost use Rattle.meaning.specs.Chain.{M};
ghost use Rattle.meaning.specs.Limit.{IsLimit};
ghost use Rattle.meaning.specs.FileLimit.{FileLimit, near_verdict, verdict_by};
ghost use Rattle.chainfile.specs.Input.{input};
ghost use Rattle.near.specs.Answer.{told_between};
ghost use Rattle.engines.specs.Answer.{told_chance};
ghost use Rattle.limit.specs.Told.{told};
ghost use Rattle.limitfile.specs.Told.{told_verdict, told_limited};

use chain::fraction::Fraction;
use chain::refusal::{Fault, Refusal};
use limit::Limit;
use near::answer::Between;

// Open: which of the two cannot be said.
#[derive(Clone, Copy)]
pub enum Verdict {
    Kept,
    Broken,
    Open,
}

// The verdict, and the near chance that is printed with it.
#[derive(Clone, Copy)]
pub struct Limited {
    pub verdict: Verdict,
    pub chance: Between,
}

// By the figures as they are printed, since these are what a reader has.
fn by_figures(m: Limit, chance: Between) -> Verdict
    ensures { told_verdict result ≡ near_verdict (told m) (told_between chance) }
{
    let low = decimals::lower(chance.lower, chance.twos);
    let high = decimals::upper(chance.upper, chance.twos);
    if limit::figure_keeps(m, u64::from(high.digits), u64::from(high.tens)) {
        Verdict::Kept
    } else if limit::figure_keeps(m, u64::from(low.digits), u64::from(low.tens)) {
        Verdict::Open
    } else {
        Verdict::Broken
    }
}

// By the exact chance, where it is answered.
fn decided(m: Limit, exact: Result<Fraction, Refusal>, chance: Between) -> Verdict
    requires { IsLimit (told m) × IfOk exact (λ f. f.denominator ≤ M) }
    ensures { told_verdict result ≡ verdict_by (told m) (told_chance exact) (told_between chance) }
{
    match exact {
        Ok(f) if limit::at_most(f.numerator, m.tens, m.digits * f.denominator) => Verdict::Kept,
        Ok(_) => Verdict::Broken,
        Err(_) => by_figures(m, chance),
    }
}

fn asked(kept: &[u8], more: u64, m: Limit) -> Result<Limited, Refusal>
    requires { IsLimit (told m) }
    ensures { FileLimit (input kept.now more) (told m) (told_limited result) }
{
    let chance = nearfile::near(kept, more, None)?.chance;
    let exact = figures::chance(kept, more);
    Ok(Limited {
        verdict: decided(m, exact, chance),
        chance,
    })
}

// The verdict on the chain file of which `kept` holds the first bytes and `more` counts the others. The limit is looked at before the file is.
pub fn judge(kept: &[u8], more: u64, m: Limit) -> Result<Limited, Refusal>
    ensures { FileLimit (input kept.now more) (told m) (told_limited result) }
{
    if limit::sound(m) {
        asked(kept, more, m)
    } else {
        Err(Refusal::from(Fault::Limit))
    }
}
