// The direct memory access controller: four channels and a general control register, reached by a processor
// through 256 byte offsets.
//
//     let mut controller = Dmac::new();
//     controller.write_byte(0x45, 0x12)?;          // channel 1's operation control register
//     controller.read_word(0x44)?                  // 0x0012: device control high, operation control low
//
// Every call is refused, and then changes nothing, or does exactly what specs/ says: Controller (the state), Access
// (register reads and writes), Line (the request lines), Step (the bus step, for the channel of Choice and under an
// exception of Exception), Run (many steps, into a trace), Examples (a table of worked examples, proved).
#![tactic(auto)]

pub mod access;
pub mod answer;
pub mod controller;
pub mod examples;
mod exception;
pub mod run;
pub mod step;
#[cfg(test)]
mod tests;
