// The board's monitor: a controller and a memory, worked by a script.
//
//     let mut monitor = Monitor::new(memory);
//     let mut out = Vec::new(heap);
//     monitor.run(b"W 25 40\nR 25\n", &mut out)?;      // out is now "OK\n40\n"
//
// specs/Monitor.antt says what each command does and prints; `run` promises the whole of both, for every script.
#![tactic(auto)]

pub mod area;
pub mod monitor;
pub mod records;
