// What the controller reads and writes: memories, and the processor's store into one.
//
//     let mut bytes = [0u8; 4096];
//     let Ok(mut memory) = Flat::new(&mut bytes) else { .. };
//     let place = Place { code: 5, address: 0x10 };
//     store(&mut memory, place, 0x41)?;            // function code 5, address $10
//     memory.read(place)                           // Some(0x41)
//
// A memory is any type with the trait `Memory`; what it means is one record of specs/Memory.antt, and code over a
// memory is proved from that meaning alone. `Flat` is one over given bytes, `Split` joins two, and a
// `&mut` to a memory is one too.
#![tactic(auto)]

pub mod flat;
pub mod lent;
pub mod memory;
pub mod split;
pub mod store;
