// Is a file's chance within a limit, for callers in C: its bytes and the limit in, the verdict out.
ghost use Rattle.std.specs.Prelude.{◌≡◌};
ghost use Rattle.meaning.specs.Block.{whole_file};
ghost use Rattle.meaning.specs.Limit.{limit};
ghost use Rattle.limitfile.specs.Told.{told_verdict};
ghost use Rattle.egorstream.specs.Limits.{verdict_number, Limits};

use limit::Limit;
use limitfile::Verdict;

// A refusal's number and place, and 0; or 0, 0 and the verdict: 1 kept, 2 broken, 3 open.
#[repr(C)]
#[derive(Clone, Copy)]
pub struct Limited {
    pub number: u32,
    pub place: u32,
    pub verdict: u32,
}

fn verdict_number(v: Verdict) -> u32
    ensures { result ≡ verdict_number (told_verdict v) }
{
    match v {
        Verdict::Kept => 1,
        Verdict::Broken => 2,
        Verdict::Open => 3,
    }
}

// The limit is digits over 10 ^ tens.
pub fn egorstream_limit(file: &[u8], digits: u64, tens: u64) -> Limited
    ensures { Limits (whole_file file.now) (limit digits tens) result }
{
    match limitfile::judge(file, 0, Limit { digits, tens }) {
        Ok(judged) => Limited {
            number: 0,
            place: 0,
            verdict: verdict_number(judged.verdict),
        },
        Err(r) => Limited {
            number: r.fault.number(),
            place: r.place as u32,
            verdict: 0,
        },
    }
}
