// A chain with its tables, as a caller lends them.
use crate::Chain;

#[derive(Clone, Copy)]
pub struct Given<'a> {
    pub chain: Chain,
    pub denominators: &'a [u64],
    pub edges: &'a [u64],
}
