// Numbers are put into the flat table.
ghost use Rattle.std.specs.Prelude.{◌≡◌, ◌+◌, ◌*◌, ◌≤◌, length};
ghost use Rattle.meaning.specs.Chain.{most_states};
ghost use Rattle.opening.specs.Split.{Placed, split, stored};

use crate::book::{ORDER, REWARDS};

fn place(table: &mut [u64], at: usize, numbers: &[u64])
    requires { at + length numbers.now ≤ length table.old }
    ensures { Placed at (length numbers.now) numbers.now table.old table.new }
{
    table[at..at + numbers.len()].copy_from_slice(numbers);
}

// The numbers of the states, each list at the front of its part.
pub(crate) fn states(table: &mut [u64], denominators: &[u64], order: &[u64], rewards: &[u64])
    requires room { 3 * most_states ≤ length table.old }
    requires lengths { (length denominators.now ≤ most_states) × (length order.now ≤ most_states) × (length rewards.now ≤ most_states) }
    ensures { let before = split table.old in
        let d = denominators.now in
        split table.new ≡ stored d order.now rewards.now before }
{
    place(table, 0, denominators);
    place(table, ORDER, order);
    place(table, REWARDS, rewards);
}
