// A printer: bytes of one channel, kept in given places.
ghost use Rattle.std.specs.Prelude.{◌≡◌, ◌-◌, min, [], ◌++◌, length, take, drop};
ghost use Rattle.queue.specs.Queue.{held, capacity_of};
ghost use Rattle.devices.specs.Bank.{printer};

use crate::bank::{DeviceBank, serves};
use queue::{Queue, move_oldest};

// `page` holds what was kept, the oldest first.
#[derive(Drop)]
pub struct Printer<'a> {
    channel: u8,
    pub page: Queue<'a, u8>,
}

impl<'a> Printer<'a> {
    // A printer with as many free places as `places` has.
    pub fn new(channel: u8, places: &'a mut [u8]) -> Printer<'a>
        ensures channel { result.channel ≡ channel }
        ensures kept { held result.page ≡ [] }
        ensures places { capacity_of result.page ≡ length places.old }
    {
        Printer {
            channel,
            page: Queue::new(places),
        }
    }

    // Moves the oldest bytes kept into `to`, at most `count`, as many as there are and as fit; their places are free again.
    pub fn move_kept(&mut self, to: &mut [u8], count: usize) -> usize
        ensures moved { result ≡ min count (min (length (held self.old.page)) (length to.old)) }
        ensures given { to.new ≡ take result (held self.old.page) ++ drop result to.old }
        ensures left { held self.new.page ≡ drop result (held self.old.page) }
        ensures room { capacity_of self.new.page ≡ capacity_of self.old.page }
        ensures channel { self.new.channel ≡ self.old.channel }
    {
        move_oldest(&mut self.page, to, count)
    }
}

impl<'a> DeviceBank for Printer<'a> {
    ghost bank = { λ s. printer s.channel (held s.page) (capacity_of s.page - length (held s.page)) };

    fn can_give(&self, channel: u8, count: usize) -> bool {
        count == 0
    }

    fn can_take(&self, channel: u8, count: usize) -> bool {
        count == 0 || serves(self.channel, channel) && count <= self.page.room()
    }

    fn give(&mut self, channel: u8) -> Option<u8> {
        None
    }

    fn take(&mut self, channel: u8, byte: u8) {
        if serves(self.channel, channel) {
            self.page.push(byte);
        }
    }
}
