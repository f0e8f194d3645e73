// What the entries answer where nothing refuses; told_chance, told_reward and told_bounds give document 01's numbers for each case.
use chain::fraction::Fraction;
use chain::refusal::Refusal;
use elimination::course::Noted;

#[derive(Clone, Copy)]
pub enum Reward {
    Is(Fraction),
    Infinite,
}

#[derive(Clone, Copy)]
pub struct Bounds {
    pub lower: Fraction,
    pub upper: Fraction,
}

// What the exact engine did: its answer, and the step list by value: how many records there are, then four numbers for each record (state,
// rows, columns, divisor), and 0 past the last.
#[derive(Clone, Copy)]
pub struct Trace {
    pub chance: Result<Fraction, Refusal>,
    pub numbers: [u64; Trace::NUMBERS],
}

impl Trace {
    // How many numbers a record has, and a trace.
    pub const RECORD: usize = Noted::RECORD;

    pub const NUMBERS: usize = Noted::NUMBERS;
}
