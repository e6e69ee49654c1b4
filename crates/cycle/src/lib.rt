// One bus cycle of a channel: which cycles an operand or an entry has, and carrying one of them out over any memory
// and any bank of devices.
//
//     let mut around = Surroundings { memory, devices };
//     match serve(&mut channel, 0, &mut around, false) {
//         Ok(record) => ..,                        // one cycle was carried out; `record` tells it
//         Err(Hindrance::Waiting) => ..,           // the device is not ready: nothing has changed
//         Err(Hindrance::Failed(fault)) => ..,     // a place is not answered: nothing has changed
//     }
//
// specs/Plan.antt is the table of an operand's cycles; specs/Carry.antt what a cycle moves, from where to where;
// specs/Serve.antt what is then left of the channel.
#![tactic(auto)]

pub mod carry;
pub mod held;
pub mod plan;
pub mod record;
pub mod serve;
pub mod surroundings;
