ghost use Rattle.std.specs.Prelude.{◌≡◌, get_or};

// The number at place i of a table, 0 past its end.
pub fn at(table: &[u64], i: usize) -> u64
    ensures { result ≡ get_or table.now i 0 }
{
    table.get(i).copied().unwrap_or(0)
}
