// What is asked of a plan's chain file: its near chances, and the verdict on it.
ghost use Rattle.meaning.specs.Copies.{Sensible};
ghost use Rattle.meaning.specs.Near.{near as nearAnswer};
ghost use Rattle.meaning.specs.Limit.{IsLimit};
ghost use Rattle.egorstream.specs.Near.{Tells};
ghost use Rattle.copies.specs.Told.{told_plan};
ghost use Rattle.limit.specs.Told.{told};
ghost use Rattle.planning.specs.Told.{PlanNears};
ghost use Rattle.planning.specs.Scan.{PlanJudged};

use copies::{LONGEST, Plan, file};
use egorstream::{Around, Nearness, egorstream_limit, egorstream_near};
use limit::Limit;

// Two of the numbers that stand for a verdict.
pub(crate) const KEPT: u32 = 1;

pub(crate) const BROKEN: u32 = 2;

fn refused(number: u32, place: u32) -> Nearness
    ensures { Tells (nearAnswer number place 0 0 0) (nearAnswer number place 0 0 0) result }
{
    let none = Around {
        lower: 0,
        upper: 0,
        twos: 0,
        lower_digits: 0,
        lower_tens: 0,
        upper_digits: 0,
        upper_tens: 0,
    };
    Nearness {
        number,
        place,
        near: none,
        miss: none,
    }
}

// The chance that no copy is left before the finish, and what is wanting of it to 1.
pub fn near(plan: Plan) -> Nearness
    ensures { PlanNears (told_plan plan) result }
{
    let mut buffer = [0u8; LONGEST];
    let filed = file(plan, &mut buffer);
    if filed.number != 0 {
        return refused(filed.number, filed.place);
    }
    let length = filed.length as usize;
    egorstream_near(&buffer[..length])
}

// The number that stands for the verdict on a sensible plan.
pub(crate) fn verdict(plan: Plan, m: Limit) -> u32
    requires { Sensible (told_plan plan) × IsLimit (told m) }
    ensures { PlanJudged (told_plan plan) (told m) result }
{
    let mut buffer = [0u8; LONGEST];
    let filed = file(plan, &mut buffer);
    let length = filed.length as usize;
    let limited = egorstream_limit(&buffer[..length], m.digits, m.tens);
    limited.verdict
}
