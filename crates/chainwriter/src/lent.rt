// What is lent to be written, and which of it a block holds.
ghost use Rattle.std.specs.Prelude.{[]};
ghost use Rattle.chain.specs.Given.{with};
ghost use Rattle.chainwriter.specs.Packed.{Fitting};

use blocks::Kind;
use chain::given::Given;

// What a file is made of: a chain with its tables, whose numbers fit into their bytes.
#[derive(Clone, Copy)]
pub(crate) struct Source<'a> {
    pub given: Given<'a>,
    pub order: &'a [u64],
    pub rewards: &'a [u64],
    ghost fitting: { Fitting (with given order.now rewards.now []) },
}

// The records of a block: so many of a kind, from one of them on.
#[derive(Clone, Copy)]
pub(crate) struct Content {
    pub kind: Kind,
    pub count: usize,
    pub begin: usize,
}
