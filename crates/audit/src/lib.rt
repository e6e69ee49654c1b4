// Histories of calls, and the law that holds over every one of them.
//
//     let mut controller = Dmac::new();
//     perform(&mut controller, &mut around, &mut trace, Call::WriteByte(0x07, 0x80));
//     perform(&mut controller, &mut around, &mut trace, Call::Run(100));
//
// `perform` makes a call that is given as a value, and promises beside what the call does that every history which led
// here goes on lawfully: what was named is delivered, in order and byte for byte, and nothing else is touched. `play`
// makes a whole log of calls on a new controller, and promises that this history is lawful. The law is specs/Law.antt,
// on one page; specs/Book.antt has the book of named and delivered operands that it speaks of.
#![tactic(auto)]

pub mod call;
pub mod examples;
pub mod log;
pub mod perform;
