// Reads a text on standard input and writes the chain file of the chain that it says; a refusal's line goes to standard error.
#![tactic(auto)]

fn main(rt: HostRuntime) {
    if input::words(&rt) != 0 {
        output::tell(
            &mut rt.stderr(),
            b"usage: makechain <FILE: reads the text of a chain on standard input, writes its chain file to standard output. Example: makechain <examples/address.text >address.chain\n",
        );
        return;
    }
    let mut kept = [0u8; chaintext::LONGEST];
    let came = match input::read(&mut rt.stdin(), &mut kept) {
        Ok(came) => came,
        Err(why) => {
            output::fail(&mut rt.stderr(), b"makechain: standard input", why);
            return;
        }
    };
    let length = came.length;
    let mut buffer = [0u8; chaintext::FILE_ROOM];
    match chaintext::make(&kept[..length], came.more, &mut buffer) {
        Ok(n) => {
            output::print(
                &mut rt.stdout(),
                &mut rt.stderr(),
                &buffer[..n],
                b"makechain: standard output",
            );
        }
        Err(r) => output::complain(&mut rt.stderr(), r.fault.number(), r.place),
    }
}
