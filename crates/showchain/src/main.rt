// Reads a chain file on standard input and prints it as a text.
#![tactic(auto)]

fn main(rt: HostRuntime) {
    if input::words(&rt) != 0 {
        output::tell(
            &mut rt.stderr(),
            b"usage: showchain <FILE: reads a chain file on standard input, writes it as a text to standard output. Example: showchain <examples/address.chain\n",
        );
        return;
    }
    let mut kept = [0u8; chainfile::LONGEST];
    let came = match input::read(&mut rt.stdin(), &mut kept) {
        Ok(came) => came,
        Err(why) => {
            output::fail(&mut rt.stderr(), b"showchain: standard input", why);
            return;
        }
    };
    let length = came.length;
    let mut buffer = [0u8; showing::ROOM];
    if let Ok(n) = showing::show(&kept[..length], came.more, &mut buffer) {
        output::print(
            &mut rt.stdout(),
            &mut rt.stderr(),
            &buffer[..n],
            b"showchain: standard output",
        );
    }
}
