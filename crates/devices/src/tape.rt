// A tape: given bytes, handed over on one channel.
ghost use Rattle.std.specs.Prelude.{◌≡◌};
ghost use Rattle.devices.specs.Bank.{tape};

use crate::bank::{DeviceBank, serves};

// `rest` is what the tape has still to give.
#[derive(PartialEq, Eq, Debug, Drop)]
pub struct Tape<'a> {
    channel: u8,
    pub rest: &'a [u8],
}

impl<'a> Tape<'a> {
    pub fn new(channel: u8, bytes: &'a [u8]) -> Tape<'a>
        ensures channel { result.channel ≡ channel }
        ensures bytes { result.rest.now ≡ bytes.now }
    {
        Tape {
            channel,
            rest: bytes,
        }
    }

    // The bytes that wait on a channel.
    fn waiting(&self, channel: u8) -> &'a [u8]
        ensures { result.now ≡ (tape self.now.channel self.now.rest.now).waiting channel }
    {
        if serves(self.channel, channel) {
            self.rest
        } else {
            &[]
        }
    }
}

impl<'a> DeviceBank for Tape<'a> {
    ghost bank = { λ s. tape s.channel s.rest.now };

    fn can_give(&self, channel: u8, count: usize) -> bool {
        count <= self.waiting(channel).len()
    }

    fn can_take(&self, channel: u8, count: usize) -> bool {
        count == 0
    }

    fn give(&mut self, channel: u8) -> Option<u8> {
        let (first, rest) = self.waiting(channel).split_first()?;
        self.rest = rest;
        Some(*first)
    }

    fn take(&mut self, channel: u8, byte: u8) {}
}
