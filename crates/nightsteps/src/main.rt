// Reads a chain file on standard input and prints its step list and its chance.
#![tactic(auto)]

use report::steps;

fn main(rt: HostRuntime) {
    if input::words(&rt) != 0 {
        output::tell(
            &mut rt.stderr(),
            b"usage: nightsteps <FILE: reads a chain file on standard input, writes its step list and its chance to standard output. Example: nightsteps <examples/gateway.chain\n",
        );
        return;
    }
    let mut kept = [0u8; chainfile::LONGEST];
    let came = match input::read(&mut rt.stdin(), &mut kept) {
        Ok(came) => came,
        Err(why) => {
            output::fail(&mut rt.stderr(), b"nightsteps: standard input", why);
            return;
        }
    };
    let length = came.length;
    let mut buffer = [0u8; report::STEPS_ROOM];
    if let Ok(n) = steps(&kept[..length], came.more, &mut buffer) {
        output::print(
            &mut rt.stdout(),
            &mut rt.stderr(),
            &buffer[..n],
            b"nightsteps: standard output",
        );
    }
}
