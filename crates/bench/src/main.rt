//! The bench: reads a sheet of commands from standard input, and prints its lines.
#![tactic(auto)]

use std::io::Read;

fn main(rt: HostRuntime) -> anyhow::Result<()> {
    let mut sheet = Vec::new(rt.alloc());
    rt.stdin().read_to_end(&mut sheet)?;
    let text = sheet::lines(rt.alloc(), &sheet)?;
    print!(rt; "{text}")?;
    Ok(())
}
