// The engines by name, and what each asks.
ghost use Rattle.std.specs.Prelude.{◌≡◌};
ghost use Rattle.elimination.specs.Engine.{rounds, is_paid, is_short};

use chain::given::Given;
use survey::Sets;

// The chance, the expected reward, the bounds, and the bounds of what is left of a chain.
#[derive(Clone, Copy)]
pub enum Engine {
    Chance,
    Reward,
    Bounds,
    Left,
}

impl Engine {
    // Rows are rounded where they do not fit.
    pub fn rounding(self) -> bool
        ensures { result ≡ rounds self }
    {
        matches!(self, Engine::Bounds | Engine::Left)
    }

    // A turn earns rewards, which are lent.
    pub fn paid(self) -> bool
        ensures { result ≡ is_paid self }
    {
        matches!(self, Engine::Reward)
    }

    // Rows may fall short.
    pub fn short(self) -> bool
        ensures { result ≡ is_short self }
    {
        matches!(self, Engine::Left)
    }
}

// An elimination: its chain with its tables and its sets, and its engine.
#[derive(Clone, Copy)]
pub(crate) struct Elimination<'a> {
    pub given: Given<'a>,
    pub sets: Sets,
    pub engine: Engine,
}
