// Reads a script of store calls from standard input, plays it, and prints what each call is answered.
#![tactic(auto)]

use anyhow::bail;
use std::io;
use storetranscripts::transcript;

fn run(rt: &HostRuntime) -> anyhow::Result<()> {
    let heap = rt.alloc();
    let script = io::read_to_string(heap, rt.stdin())?;
    match transcript(heap, script.as_str()) {
        Ok(out) => print!(rt; "{out}")?,
        Err(unread) => {
            println!(rt; "{unread}")?;
            bail!("the script was not played");
        }
    }
    Ok(())
}

fn main(rt: HostRuntime) -> anyhow::Result<()> {
    run(&rt)
}
