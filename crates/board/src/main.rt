// The board: runs scripts and prints what they answer.
//
//     board                     a script from standard input
//     board a.script - b.script each on a board of its own, one after the other; - is standard input
#![tactic(auto)]

use anyhow::anyhow;
use bus::flat::Flat;
use inputs::for_each_input;
use monitor::monitor::{Monitor, SCRIPT};
use std::io::Write;

// Runs a script on a new board, with 4,096 memory bytes of 0, and prints what it answers.
fn run(rt: &HostRuntime, script: &[u8]) -> anyhow::Result<()> {
    let mut bytes = [0u8; 4096];
    // A `map_err` gets no proof here, since the memory and the refused bytes are one borrow.
    let Ok(memory) = Flat::new(&mut bytes) else {
        return Err(anyhow!("the board's memory is too large"));
    };
    let mut monitor = Monitor::new(memory);
    let mut out = Vec::new(rt.alloc());
    monitor.run(script, &mut out)?;
    rt.stdout().write_all(&out)?;
    Ok(())
}

fn main(rt: HostRuntime) -> anyhow::Result<()> {
    for_each_input(&rt, SCRIPT as u64, |script| run(&rt, script))
}
