// The writer for callers in C: a chain's numbers and tables in, the chain file out into a lent buffer.
ghost use Rattle.std.specs.Prelude.{◌≡◌, ◌<◌, ◌^◌, IfErr};
ghost use Rattle.meaning.specs.Write.{WriteOutcome};
ghost use Rattle.chainwriter.specs.Tells.{told as answered};
ghost use Rattle.egorstream.specs.Told.{told, lent};

use chain::Chain;
use chain::given::Given;
use chain::refusal::Refusal;

// How many numbers of the list an edge has.
pub const EDGE_SIZE: usize = chain::edge::SIZE;

// How many bytes a block of a chain file has.
pub const BLOCK_LENGTH: usize = octets::layout::BLOCK;

// A refusal's number and place, or 0 and how long the file is.
#[repr(C)]
#[derive(Clone, Copy)]
pub struct Written {
    pub number: u32,
    pub place: u32,
    pub length: u64,
}

impl Written {
    // A refusal's place has room in its four bytes.
    pub(crate) fn of(written: Result<usize, Refusal>) -> Written
        requires { IfErr written (λ r. r.place < 2 ^ 32) }
        ensures { told result ≡ answered written }
    {
        match written {
            Ok(length) => Written {
                number: 0,
                place: 0,
                length: length as u64,
            },
            Err(r) => Written {
                number: r.fault.number(),
                place: r.place as u32,
                length: 0,
            },
        }
    }
}

pub fn egorstream_write(
    states: u64,
    start: u64,
    goals: u64,
    denominators: &[u64],
    edges: &[u64],
    order: &[u64],
    rewards: &[u64],
    buffer: &mut [u8],
) -> Written
    ensures { let l = lent states start goals denominators.now edges.now order.now rewards.now in
        WriteOutcome (l buffer.old) (told result) buffer.new }
{
    let given = Given {
        chain: Chain::new(states as usize, start as usize, goals),
        denominators,
        edges,
    };
    Written::of(chainwriter::write(&given, order, rewards, buffer))
}
