// Fletcher's two sums of a block.
#![tactic(auto)]

ghost use Rattle.std.specs.Prelude.{◌≡◌, ℕ, ◌+◌, ◌*◌, ◌≤◌, ◌<◌, length, get_or};
ghost use Rattle.meaning.specs.Number.{sum_to};
ghost use Rattle.meaning.specs.Block.{first_sum, second_sum, check_modulus, check_begin, checked_bytes, byte, block_byte};
ghost use Rattle.octets.specs.Input.{input};
ghost use Rattle.fletcher.specs.Columns.{columns, BothSums, Low, RowAdded};

use octets::layout;

// The checked bytes of a whole block as rows of columns, which the compiler sums several at once: with so few rows a column's sums fit 16 bits.
const ROWS: usize = 5;

const COLUMNS: usize = layout::CHECKED / ROWS;

// What both sums of a block are taken modulo, and what they begin at.
#[derive(Clone, Copy)]
struct Rule {
    modulus: u64,
    begin: u64,
    ghost begin_lt_modulus: { begin < modulus },
    ghost small: { modulus < 65536 },
}

impl Rule {
    // A version other than 2 goes by the old rule.
    fn of(version: u64) -> Self
        ensures { (result.modulus ≡ check_modulus version) × (result.begin ≡ check_begin version) }
    {
        match version {
            layout::SECOND => Self {
                modulus: 251,
                begin: 1,
            },
            _ => Self {
                modulus: 255,
                begin: 0,
            },
        }
    }
}

#[derive(Clone, Copy)]
pub struct Sums {
    pub first: u64,
    pub second: u64,
}

// Where block b begins; of a block that lies past the bytes, where they end.
fn block_start(kept: &[u8], b: usize) -> usize
    ensures { let f = input kept.now 0 in
        (result ≤ length f.kept) × ((j : ℕ) → byte f (result + j) ≡ block_byte f b j) }
{
    octets::end(kept, b.saturating_mul(layout::BLOCK))
}

// One row more, after at most four: its bytes go to the plain sums of their columns, and these to the sums of the plain sums.
fn add_row(row: &[u8], plain: &mut [u16; COLUMNS], sums: &mut [u16; COLUMNS])
    requires { (length row.now ≡ columns) × Low 1020 plain.old × Low 5100 sums.old }
    ensures { RowAdded row.now plain.old sums.old plain.new sums.new }
{
    for c in 0..COLUMNS {
        let sum = plain[c] + u16::from(row[c]);
        plain[c] = sum;
        sums[c] += sum;
    }
}

// The sum of all columns.
fn total(numbers: &[u16; COLUMNS]) -> u64
    ensures { (result ≡ sum_to (λ c. get_or numbers.now c 0) columns) × (result < 4294967296) }
{
    let sum: u32 = numbers.iter().map(|x| u32::from(*x)).sum();
    u64::from(sum)
}

// The same, with each column as often as columns lie before it.
fn places(numbers: &[u16; COLUMNS]) -> u64
    ensures { result ≡ sum_to (λ c. c * get_or numbers.now c 0) columns }
{
    let mut sum = 0u32;
    for (c, x) in numbers.iter().enumerate() {
        sum += c as u32 * u32::from(*x);
    }
    u64::from(sum)
}

// Fletcher's sums of a block of which all that is checked is kept. A byte counts in the second sum once for each byte from it on: that is COLUMNS times for
// each row from its own on, less the columns before it.
fn by_columns(block: &[u8], rule: Rule) -> Sums
    requires { length block.now ≡ checked_bytes }
    ensures { BothSums rule.modulus rule.begin block.now result.first result.second }
{
    let mut plain = [0u16; COLUMNS];
    let mut sums = [0u16; COLUMNS];
    for row in block.chunks_exact(COLUMNS) {
        add_row(row, &mut plain, &mut sums);
    }
    let first = rule.begin + total(&plain);
    let counted = rule.begin + rule.begin * layout::CHECKED as u64 + total(&sums) * COLUMNS as u64;
    let second = counted - places(&plain);
    Sums {
        first: first % rule.modulus,
        second: second % rule.modulus,
    }
}

// The same of a block that is cut short. Of the bytes that are not kept each adds 0 to the first sum, and so the first sum to the second.
fn byte_by_byte(block: &[u8], rule: Rule) -> Sums
    requires { length block.now ≤ checked_bytes }
    ensures { BothSums rule.modulus rule.begin block.now result.first result.second }
{
    let mut first = rule.begin;
    let mut second = rule.begin;
    for byte in block {
        first += u64::from(*byte);
        second += first;
    }
    let left = (layout::CHECKED - block.len()) as u64;
    second += first * left;
    Sums {
        first: first % rule.modulus,
        second: second % rule.modulus,
    }
}

// Of all bytes of a block that are checked, by a rule. They are so few that neither sum wraps: one remainder at the end does for all of them.
fn both(block: &[u8], rule: Rule) -> Sums
    requires { length block.now ≤ checked_bytes }
    ensures { BothSums rule.modulus rule.begin block.now result.first result.second }
{
    if block.len() == layout::CHECKED {
        by_columns(block, rule)
    } else {
        byte_by_byte(block, rule)
    }
}

// The check of block b by the rule of this version.
pub fn check(kept: &[u8], b: usize, version: u64) -> Sums
    ensures first { let block = block_byte (input kept.now 0) b in
        result.first ≡ first_sum (check_modulus version) (check_begin version) block checked_bytes }
    ensures second { let block = block_byte (input kept.now 0) b in
        result.second ≡ second_sum (check_modulus version) (check_begin version) block checked_bytes }
{
    let at = block_start(kept, b);
    let e = octets::end(kept, at + layout::CHECKED);
    both(&kept[at..e], Rule::of(version))
}
