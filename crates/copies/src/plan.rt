// A plan: which copies and weights it may have.
ghost use Rattle.meaning.specs.Refusal.{Beyond};
ghost use Rattle.copies.specs.Told.{told_plan, least_wrong};
ghost use Rattle.meaning.specs.Number.{decides};

// The most copies, and the greatest weight.
pub(crate) const COPIES: u64 = 32;

pub(crate) const WEIGHT: u64 = 1000000;

// How many copies, and the weights of a loss, a rebuild and the finish.
#[derive(Clone, Copy)]
pub struct Plan {
    pub copies: u64,
    pub loss: u64,
    pub rebuild: u64,
    pub finish: u64,
}

// x is not 1 to the limit.
pub(crate) fn beyond(limit: u64, x: u64) -> bool
    ensures { decides (Beyond limit x) result }
{
    x == 0 || limit < x
}

// The least place of a wrong weight.
pub(crate) fn wrong(plan: Plan) -> Option<usize>
    ensures { least_wrong (told_plan plan) result }
{
    if beyond(WEIGHT, plan.loss) {
        return Some(0);
    }
    if beyond(WEIGHT, plan.rebuild) {
        return Some(1);
    }
    if beyond(WEIGHT, plan.finish) {
        return Some(2);
    }
    None
}
