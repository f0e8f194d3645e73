// Reads a chain file on standard input and prints its report.
#![tactic(auto)]

use report::report;

fn main(rt: HostRuntime) {
    if input::words(&rt) != 0 {
        output::tell(
            &mut rt.stderr(),
            b"usage: nightchance <FILE: reads a chain file on standard input, writes its report to standard output. Example: nightchance <examples/address.chain\n",
        );
        return;
    }
    let mut kept = [0u8; chainfile::LONGEST];
    let came = match input::read(&mut rt.stdin(), &mut kept) {
        Ok(came) => came,
        Err(why) => {
            output::fail(&mut rt.stderr(), b"nightchance: standard input", why);
            return;
        }
    };
    let length = came.length;
    let mut buffer = [0u8; report::REPORT_ROOM];
    if let Ok(n) = report(&kept[..length], came.more, &mut buffer) {
        output::print(
            &mut rt.stdout(),
            &mut rt.stderr(),
            &buffer[..n],
            b"nightchance: standard output",
        );
    }
}
