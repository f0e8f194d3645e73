// Reads a chain file on standard input and prints what is left of it.
#![tactic(auto)]

use salvaging::salvage;

fn main(rt: HostRuntime) {
    if input::words(&rt) != 0 {
        output::tell(
            &mut rt.stderr(),
            b"usage: salvage <FILE: reads a damaged chain file on standard input, writes bounds of its chance and what is lost to standard output. Example: salvage <examples/damaged.chain\n",
        );
        return;
    }
    let mut kept = [0u8; chainfile::LONGEST];
    let came = match input::read(&mut rt.stdin(), &mut kept) {
        Ok(came) => came,
        Err(why) => {
            output::fail(&mut rt.stderr(), b"salvage: standard input", why);
            return;
        }
    };
    let length = came.length;
    let mut buffer = [0u8; salvaging::ROOM];
    if let Ok(n) = salvage(&kept[..length], came.more, &mut buffer) {
        output::print(
            &mut rt.stdout(),
            &mut rt.stderr(),
            &buffer[..n],
            b"salvage: standard output",
        );
    }
}
