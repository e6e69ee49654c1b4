// What the controller's channels move bytes from and to: banks of devices.
//
//     let mut devices = Pair::new(1, Tape::new(0, b"abc"), Tape::new(2, b"xyz"));
//     devices.can_give(0, 2)                       // true
//     devices.give_word(0)                         // Some((0x61, 0x62))
//     devices.give(2)                              // Some(0x78)
//     devices.can_take(2, 1)                       // false: a tape takes nothing
//
// A bank is any type with the trait `DeviceBank`; what it means is one record of specs/Bank.antt, and code over a
// bank is proved from that meaning alone. A `&mut` to a bank is one too. docs/DEVICES.md is for
// whoever writes another one.
#![tactic(auto)]

pub mod bank;
pub mod lent;
pub mod none;
pub mod pair;
pub mod printer;
pub mod tape;
#[cfg(test)]
mod tests;
