// Which states of a chain have a path to an end, which are live, and how many. The ends are the goals and, where rows may fall short, the states
// whose rows do.
#![tactic(auto)]

ghost use Rattle.std.specs.Prelude.{false, []};
ghost use Rattle.meaning.specs.Survey.{SurveyOutcome};
ghost use Rattle.chain.specs.Given.{with};
ghost use Rattle.survey.specs.Told.{told};

use chain::given::Given;
use chain::refusal::Refusal;

pub mod looking;
mod reach;

// The states with a path to an end, the live ones, and whether a state is reached that has no path to one.
#[derive(Clone, Copy)]
pub struct Sets {
    pub good: u64,
    pub live: u64,
    pub missed: bool,
}

// What a survey finds: the sets, how many of the states are goals and how many are live, the start included where it is live. told gives document
// 01's numbers.
#[derive(Clone, Copy)]
pub struct Survey {
    pub sets: Sets,
    pub goals: u32,
    pub live: u32,
}

// The survey of a chain whose rows may fall short or not.
pub fn along(g: &Given, short: bool) -> Result<Survey, Refusal>
    ensures { SurveyOutcome short (with g.now [] [] []) (told result) }
{
    look::alone(g, short)?;
    let sets = reach::sets(g, short);
    Ok(Survey {
        sets,
        goals: g.chain.goals.count_ones(),
        live: sets.live.count_ones(),
    })
}

// The same where no row may fall short.
pub fn of(g: &Given) -> Result<Survey, Refusal>
    ensures { SurveyOutcome false (with g.now [] [] []) (told result) }
{
    along(g, false)
}
