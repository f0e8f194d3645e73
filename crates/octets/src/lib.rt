// Bytes and numbers of a file: where everything lies in one, how it is read there, and how numbers are stored. A byte that is not kept counts as 0.
#![tactic(auto)]

ghost use Rattle.std.specs.Prelude.{◌≡◌, ◌*◌, ◌^◌, ◌≤◌, ◌<◌, min, length, get_or};
ghost use Rattle.meaning.specs.Block.{number_at, four_byte_number};
ghost use Rattle.meaning.specs.File.{NonZero};
ghost use Rattle.meaning.specs.Number.{decides, sum_to};
ghost use Rattle.octets.specs.Input.{input};

pub mod layout;
mod store;

pub use store::put_number;

pub fn byte(kept: &[u8], at: usize) -> u64
    ensures { (result ≡ get_or kept.now at 0) × (result < 256) }
{
    u64::from(kept.get(at).copied().unwrap_or(0))
}

// The number in a few bytes, little-endian.
fn whole_number(bytes: &[u8]) -> u64
    requires { length bytes.now ≤ 4 }
    ensures { let b = bytes.now in
        (result ≡ sum_to (λ k. get_or b k 0 * 256 ^ k) (length b)) × (result < 256 ^ length b) }
{
    let mut number = 0;
    let mut unit = 1;
    for byte in bytes {
        number += u64::from(*byte) * unit;
        unit *= 256;
    }
    number
}

// The number in `width` bytes from byte `at` on. Where all of them are kept, the compiler sees how many they are, and reads them at once.
fn few_bytes(kept: &[u8], at: usize, width: usize) -> u64
    requires { width ≤ 4 }
    ensures { (result ≡ number_at (input kept.now 0) at width) × (result < 256 ^ width) }
{
    let left = &kept[end(kept, at)..];
    if left.len() < width {
        whole_number(left)
    } else {
        whole_number(&left[..width])
    }
}

// The number in `width` bytes from byte `at` on, of which no more than four are read.
pub fn number(kept: &[u8], at: usize, width: usize) -> u64
    ensures { let few = min width 4 in
        (result ≡ number_at (input kept.now 0) at few) × (result < 256 ^ few) }
{
    few_bytes(kept, at, width.min(layout::QUAD))
}

// Number i of a row of numbers of 4 bytes.
pub fn four_byte_number(bytes: &[u8], i: usize) -> u64
    ensures { result ≡ four_byte_number bytes.now i }
{
    few_bytes(bytes, i.saturating_mul(layout::QUAD), layout::QUAD)
}

// What is kept up to byte `high` ends here: there, or where all that is kept ends.
pub fn end(kept: &[u8], high: usize) -> usize
    ensures { result ≡ min high (length kept.now) }
{
    high.min(kept.len())
}

// Some byte is not 0. All are looked at, whatever the first ones are, so that the compiler can take many at once.
fn some_written(bytes: &[u8]) -> bool
    ensures { let all = bytes.now in decides (NonZero (input all 0) 0 (length all)) result }
{
    bytes.iter().fold(0, |all, byte| all | *byte) != 0
}

// A byte from `low` on and before `high` is not 0.
pub fn written(kept: &[u8], low: usize, high: usize) -> bool
    ensures { decides (NonZero (input kept.now 0) low high) result }
{
    let e = end(kept, high);
    low <= e && some_written(&kept[low..e])
}
