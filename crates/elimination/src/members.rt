// The states of a set that is written as one number, from the lowest on.
ghost use Rattle.std.specs.Prelude.{◌≡◌, MatchOption};
ghost use Rattle.std.specs.Iterator.{at_most};
ghost use Rattle.chain.specs.Rising.{Lowest, Others};

use chain::bits::{lowest, others};

// What is left of the set.
#[derive(Clone, Copy)]
pub(crate) struct Members(pub u64);

impl Iterator for Members {
    type Item = usize;

    ghost next_gives = { λ s r t. MatchOption r ((s.0 ≡ 0) × (t.0 ≡ 0)) (λ j. Lowest s.0 j × Others s.0 t.0) };

    ghost remaining = { λ s. at_most s.0 };

    fn next(&mut self) -> Option<usize> {
        if self.0 == 0 {
            return None;
        }
        let j = lowest(self.0);
        self.0 = others(self.0);
        Some(j)
    }
}
