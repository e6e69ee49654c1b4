// A bank of two banks.
ghost use Rattle.std.specs.Prelude.{◌≡◌};
ghost use Rattle.devices.specs.Bank.{pair};
ghost use Rattle.devices.specs.Loans.{Beside};

use crate::bank::DeviceBank;

// Channels below `limit` are served by `first`, the others by `second`. Each method asks its bank itself: a bank
// chosen once for all four would be of two types, and each method would match on which.
#[derive(PartialEq, Eq, Debug, Drop)]
pub struct Pair<A: DeviceBank, B: DeviceBank> {
    limit: u8,
    pub first: A,
    pub second: B,
}

impl<A: DeviceBank, B: DeviceBank> Pair<A, B> {
    pub fn new(limit: u8, first: A, second: B) -> Pair<A, B>
        ensures limit { result.limit ≡ limit }
        ensures first { result.first ≡ first }
        ensures second { result.second ≡ second }
    {
        Pair {
            limit,
            first,
            second,
        }
    }
}

impl<A: DeviceBank, B: DeviceBank> DeviceBank for Pair<A, B> {
    ghost bank = { λ s. pair s.limit (A.DeviceBank.bank s.first) (B.DeviceBank.bank s.second) };

    ghost loans = { λ s. Beside (A.DeviceBank.loans s.first) (B.DeviceBank.loans s.second) };

    fn can_give(&self, channel: u8, count: usize) -> bool {
        if channel < self.limit {
            self.first.can_give(channel, count)
        } else {
            self.second.can_give(channel, count)
        }
    }

    fn can_take(&self, channel: u8, count: usize) -> bool {
        if channel < self.limit {
            self.first.can_take(channel, count)
        } else {
            self.second.can_take(channel, count)
        }
    }

    fn give(&mut self, channel: u8) -> Option<u8> {
        if channel < self.limit {
            self.first.give(channel)
        } else {
            self.second.give(channel)
        }
    }

    fn take(&mut self, channel: u8, byte: u8) {
        if channel < self.limit {
            self.first.take(channel, byte);
        } else {
            self.second.take(channel, byte);
        }
    }
}
