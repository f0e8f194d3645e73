// Where everything of a chain file lies: nothing else knows.
use chain::Chain;

// The bytes of a block.
pub const BLOCK: usize = 512;

// The versions of a block.
pub const FIRST: u64 = 1;

pub const SECOND: u64 = 2;

// What stands in a block, each from its first byte on.
pub const KIND: usize = 0;

pub const VERSION: usize = 1;

pub const BLOCK_NUMBER: usize = 2;

pub const COUNT: usize = 4;

pub const RECORDS: usize = 6;

// The check is the last two bytes, and all before it are checked.
pub const CHECKED: usize = BLOCK - 2;

// The bytes of a record, and the most records of a block.
pub const RECORD: usize = 8;

pub const FULL: usize = (CHECKED - RECORDS) / RECORD;

// The most blocks of a file: the head, the blocks of the states and those of the edges.
pub const BLOCKS: usize = 1 + (Chain::STATES + FULL - 1) / FULL + (Chain::EDGES + FULL - 1) / FULL;

// The bytes of the longest file.
pub const LONGEST: usize = BLOCK * BLOCKS;

// The bytes of a number of one, of two and of four bytes.
pub const SINGLE: usize = 1;

pub const PAIR: usize = 2;

pub const QUAD: usize = 4;

// The head's record, and where its reserved bytes begin.
pub const HEAD_STATES: usize = 0;

pub const HEAD_START: usize = 1;

pub const HEAD_EDGES: usize = 2;

pub const HEAD_REST: usize = 4;

// A state's record.
pub const DENOMINATOR: usize = 0;

pub const REWARD: usize = 4;

pub const FLAG: usize = 6;

pub const ORDER: usize = 7;

// An edge's record. In version 1 two zeros stand where the reward does.
pub const FROM: usize = 0;

pub const TO: usize = 1;

pub const EDGE_REWARD: usize = 2;

pub const WEIGHT: usize = 4;
