// A list that grows at the front of a lent table.
ghost use Rattle.std.specs.Prelude.{◌<◌, [], ◌∷◌, length};
ghost use Rattle.copies.specs.Grown.{Grown};

// One number more; answers the place after it.
pub(crate) fn add(table: &mut [u64], at: usize, x: u64) -> usize
    requires { at < length table.old }
    ensures { Grown table.old at (x ∷ []) table.new result }
{
    table[at] = x;
    at + 1
}
