// Reads the hub's input from standard input to its end, and prints its log. All that is done is in the crate `hub_io`.
#![tactic(auto)]

use std::io;

fn usage(rt: &HostRuntime) -> io::Result<()> {
    eprintln!(rt; "usage: hublog < INPUT > LOG")?;
    eprintln!(rt;
        "hublog takes no argument. It reads the hub's input from standard input and prints its log to standard output."
    )
}

fn main(rt: HostRuntime) -> io::Result<()> {
    if fail::has_argument(&rt) {
        let _said = usage(&rt);
        return Ok(());
    }
    let _run = hub_io::log_all(&rt, &mut rt.stdin(), &mut rt.stdout());
    Ok(())
}
