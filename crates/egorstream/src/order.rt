// The chosen order for callers in C: a file's bytes in, the order out into a lent list.
ghost use Rattle.meaning.specs.Block.{whole_file};
ghost use Rattle.meaning.specs.Choice.{FileChoice};
ghost use Rattle.choice.specs.Told.{told};
ghost use Rattle.egorstream.specs.Order.{told_order, Chosen};

use chain::refusal::Refusal;
use opening::Opened;

// A refusal's number and place, or 0 and the sum of the products.
#[repr(C)]
#[derive(Clone, Copy)]
pub struct Ordered {
    pub number: u32,
    pub place: u32,
    pub sum: u64,
}

// The order that is chosen for an opened file is put into the list.
fn choose(opened: &Opened, list: &mut [u64]) -> Result<u64, Refusal>
    ensures { Chosen opened.now list.old result list.new }
{
    choice::choose(&opened.given, list)
}

// The same of a file.
fn chosen(file: &[u8], list: &mut [u64]) -> Result<u64, Refusal>
    ensures { FileChoice (whole_file file.now) list.old (told result) list.new }
{
    opening::with(file, 0, &mut |opened| choose(opened, list))
}

pub fn egorstream_order(file: &[u8], list: &mut [u64]) -> Ordered
    ensures { FileChoice (whole_file file.now) list.old (told_order result) list.new }
{
    match chosen(file, list) {
        Ok(sum) => Ordered {
            number: 0,
            place: 0,
            sum,
        },
        Err(r) => Ordered {
            number: r.fault.number(),
            place: r.place as u32,
            sum: 0,
        },
    }
}
