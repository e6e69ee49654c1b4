// A bank that is never ready.
ghost use Rattle.std.specs.Prelude.{◌≡◌};
ghost use Rattle.devices.specs.Bank.{nothing};

use crate::bank::DeviceBank;

#[derive(PartialEq, Eq, Debug, Drop)]
pub struct NoDevices;

impl DeviceBank for NoDevices {
    ghost bank = { λ s. nothing };

    fn can_give(&self, channel: u8, count: usize) -> bool {
        count == 0
    }

    fn can_take(&self, channel: u8, count: usize) -> bool {
        count == 0
    }

    fn give(&mut self, channel: u8) -> Option<u8> {
        None
    }

    fn take(&mut self, channel: u8, byte: u8) {}
}
