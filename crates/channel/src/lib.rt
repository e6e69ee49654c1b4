// One channel of the controller: its registers, its phase, and what a register access makes of them. No
// memory and no device is known here.
//
//     let mut channel = Channel::new();
//     // Bytes, no chaining, automatic requests.
//     channel.write(Access::Nowhere, 0, Access::To(Register::Ocr), 0x01);
//     // A start: it is an error, since the transfer counter is 0.
//     channel.write(Access::To(Register::Ccr), 0x80, Access::Nowhere, 0);
//     channel.read(Register::Cer)              // 13
//
// specs/ has the meaning of each call: Decode (which register stands where), State (the channel), Start (the
// checks of a start and what it leaves), Operation (operands, the end of a block, table entries), Requests (when
// the channel asks for the bus), Write and Read (register access).
#![tactic(auto)]

pub mod access;
pub mod decode;
pub mod operation;
pub mod requests;
pub mod start;
pub mod state;
