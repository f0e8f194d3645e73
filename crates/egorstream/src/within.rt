// The chance within so many steps for callers in C: a file's bytes in, a number of parts out.
ghost use Rattle.meaning.specs.Block.{whole_file};
ghost use Rattle.meaning.specs.Within.{FileWithin};
ghost use Rattle.egorstream.specs.Reach.{told};

// A refusal's number and place, or 0 and the parts.
#[repr(C)]
#[derive(Clone, Copy)]
pub struct Reached {
    pub number: u32,
    pub place: u32,
    pub parts: u64,
}

pub fn egorstream_within(file: &[u8], steps: u64) -> Reached
    ensures { FileWithin (whole_file file.now) steps (told result) }
{
    match figures::within(file, 0, steps) {
        Err(r) => Reached {
            number: r.fault.number(),
            place: r.place as u32,
            parts: 0,
        },
        Ok(parts) => Reached {
            number: 0,
            place: 0,
            parts,
        },
    }
}
