// The registers of one channel, in groups by when they may change, and the fields of those that are made
// of bits. Status, control and configuration registers are bytes; their fields are read and changed by
// masks and shifts, as the chip's programmer would do it:
//
//     let mut status = Status { csr: 0x08, cer: 0 };
//     status.fail(Fault::Timing);          // csr is now 0x90, cer 2
//     status.clear(0x90);                  // both are 0 again
//
// specs/ has the same fields as definitions; every function here promises to be its definition.
#![tactic(auto)]

pub mod config;
pub mod control;
pub mod fault;
pub mod groups;
pub mod status;
