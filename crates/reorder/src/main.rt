// Reads a chain file on standard input and writes the file of the same chain with the chosen order; a refusal's line goes to standard error.
#![tactic(auto)]

fn main(rt: HostRuntime) {
    if input::words(&rt) != 0 {
        output::tell(
            &mut rt.stderr(),
            b"usage: reorder <FILE: reads a chain file on standard input, writes the file of the same chain with a chosen order to standard output. Example: reorder <examples/gateway.chain >better.chain\n",
        );
        return;
    }
    let mut kept = [0u8; chainfile::LONGEST];
    let came = match input::read(&mut rt.stdin(), &mut kept) {
        Ok(came) => came,
        Err(why) => {
            output::fail(&mut rt.stderr(), b"reorder: standard input", why);
            return;
        }
    };
    let length = came.length;
    let mut buffer = [0u8; reordering::ROOM];
    match reordering::reorder(&kept[..length], came.more, &mut buffer) {
        Ok(n) => {
            output::print(
                &mut rt.stdout(),
                &mut rt.stderr(),
                &buffer[..n],
                b"reorder: standard output",
            );
        }
        Err(r) => output::complain(&mut rt.stderr(), r.fault.number(), r.place),
    }
}
