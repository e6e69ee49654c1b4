// A device of one channel, of a kind that is known only when the program runs.
ghost use Rattle.replay.specs.Device.{meaning, lent_of};

use devices::bank::DeviceBank;

// It is an enum and no `dyn`, since a question shows what a tape has left and what a printer keeps, which no bank tells.
#[derive(Drop)]
pub enum Device<A, B> {
    Tape(A),
    Printer(B),
}

impl<A: DeviceBank, B: DeviceBank> DeviceBank for Device<A, B> {
    ghost bank = { λ s. meaning A.DeviceBank.bank B.DeviceBank.bank s };

    ghost loans = { λ s. lent_of A.DeviceBank.loans B.DeviceBank.loans s };

    fn can_give(&self, channel: u8, count: usize) -> bool {
        match self {
            Device::Tape(tape) => tape.can_give(channel, count),
            Device::Printer(printer) => printer.can_give(channel, count),
        }
    }

    fn can_take(&self, channel: u8, count: usize) -> bool {
        match self {
            Device::Tape(tape) => tape.can_take(channel, count),
            Device::Printer(printer) => printer.can_take(channel, count),
        }
    }

    fn give(&mut self, channel: u8) -> Option<u8> {
        match self {
            Device::Tape(tape) => tape.give(channel),
            Device::Printer(printer) => printer.give(channel),
        }
    }

    fn take(&mut self, channel: u8, byte: u8) {
        match self {
            Device::Tape(tape) => tape.take(channel, byte),
            Device::Printer(printer) => printer.take(channel, byte),
        }
    }
}
