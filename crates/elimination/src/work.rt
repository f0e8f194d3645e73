// The work table: where its rows begin, and how it is made zero.
ghost use Rattle.std.specs.Prelude.{◌≡◌, ◌++◌, ◌+◌, ◌*◌, ◌^◌, ◌%◌, ◌≤◌, ◌<◌, min, length, drop, replicate};
ghost use Rattle.meaning.specs.Chain.{most_states};
ghost use Rattle.meaning.specs.Row.{width};
ghost use Rattle.meaning.specs.Refusal.{work_size};

use chain::Chain;

// Where row i of the table of n rows begins: it ends within the table. Of other numbers it is the product, modulo 2 ^ 64, which costs no test.
pub fn row_start(n: usize, i: usize) -> usize
    ensures row { i < n → n ≤ most_states → (result ≡ i * width n) × (result + width n ≤ work_size n) }
    ensures product { result ≡ i * (width n % 2 ^ 64) % 2 ^ 64 }
{
    i.wrapping_mul(n.wrapping_add(Chain::BESIDE))
}

// Makes a part of the table zero.
pub fn clear(part: &mut [u64])
    ensures { part.new ≡ replicate (length part.old) 0 }
{
    part.fill(0);
}

// Makes the table of n rows zero, or all that is lent where that is less. The numbers past it stay; no table has more rows than a chain has states.
pub fn clear_work(work: &mut [u64], n: usize)
    ensures table { let m = min (work_size n) (length work.old) in
        n ≤ most_states → work.new ≡ replicate m 0 ++ drop m work.old }
    ensures none { most_states < n → work.new ≡ work.old }
{
    if n <= Chain::STATES {
        let m = n * (n + Chain::BESIDE);
        let m = m.min(work.len());
        clear(&mut work[..m]);
    }
}
