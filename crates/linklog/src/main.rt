// Prints the answer of every pull over a raw capture on standard input.
#![tactic(auto)]

use answers::log;
use capture_input::{LIMIT, read_capture};

fn main(rt: HostRuntime) -> anyhow::Result<()> {
    let Some(capture) = read_capture(rt.alloc(), rt.stdin())? else {
        println!(rt; "longer than {LIMIT}")?;
        return Ok(());
    };
    let text = log(rt.alloc(), capture.as_slice())?;
    print!(rt; "{text}")?;
    Ok(())
}
