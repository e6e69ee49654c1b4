// A bank that is lent.
ghost use Rattle.devices.specs.Loans.{Lent};

use crate::bank::DeviceBank;

impl<D: DeviceBank> DeviceBank for &mut D {
    ghost bank = { λ s. D.DeviceBank.bank s.now };

    ghost loans = { λ s. Lent s.ghost_name (D.DeviceBank.loans s.now) };

    fn can_give(&self, channel: u8, count: usize) -> bool {
        (**self).can_give(channel, count)
    }

    fn can_take(&self, channel: u8, count: usize) -> bool {
        (**self).can_take(channel, count)
    }

    fn give(&mut self, channel: u8) -> Option<u8> {
        (**self).give(channel)
    }

    fn take(&mut self, channel: u8, byte: u8) {
        (**self).take(channel, byte);
    }

    // A word is asked of the bank itself too, which may have methods of its own for it.
    fn give_word(&mut self, channel: u8) -> Option<(u8, u8)> {
        (**self).give_word(channel)
    }

    fn take_word(&mut self, channel: u8, high: u8, low: u8) {
        (**self).take_word(channel, high, low);
    }
}
