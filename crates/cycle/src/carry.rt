// What a cycle moves, from where to where.
ghost use Rattle.std.specs.Prelude.{◌≡◌, if◌then◌else◌};
ghost use Rattle.bus.specs.Memory.{byte_read, word_read};
ghost use Rattle.devices.specs.Bank.{give_tried, take_tried, byte_handed, word_handed};
ghost use Rattle.cycle.specs.Held.{data_bytes, byte_data, word_data};
ghost use Rattle.cycle.specs.Carry.{sent, side_end, source_end, destination_end, is_device_cycle, slot_code, slot_address, count_of, data_got, bank_got, data_written, memory_put, bank_put, held_after};
ghost use Rattle.cycle.specs.Serve.{is_slot_ready, is_slot_answered};
ghost use Rattle.cycle.specs.Surroundings.{loans_of};

use crate::held::{first_of, rest_of, with_more};
use crate::plan::{Side, Slot, Way};
use crate::record::Data;
use crate::surroundings::Surroundings;
use bus::flat::PLACES;
use bus::memory::{Memory, Place};
use channel::state::{Channel, Held};
use devices::bank::DeviceBank;
use registers::groups::{Config, Registers};

// Where the bytes of a cycle come from or go to: memory, the channel's device, or what the channel holds.
#[derive(Clone, Copy, PartialEq, Eq, Debug)]
pub enum End {
    InMemory,
    InDevice,
    InChannel,
}

// The address that a register sends.
pub(crate) fn sent(register: u32, offset: u32) -> u32
    ensures { result ≡ sent register offset }
{
    register.wrapping_add(offset) % PLACES as u32
}

fn side_end(side: Side, config: Config) -> End
    ensures { result ≡ side_end side config }
{
    match side {
        Side::Device if !config.is_device_memory() => End::InDevice,
        Side::Memory | Side::Device => End::InMemory,
    }
}

impl Slot {
    // Where the bytes come from, and where they go.
    pub(crate) fn ends(self, config: Config) -> (End, End)
        ensures { result ≡ (source_end self config, destination_end self config) }
    {
        match self.way {
            Way::Source => (side_end(self.side, config), End::InChannel),
            Way::Destination => (End::InChannel, side_end(self.side, config)),
            Way::Through if config.is_inward() => (End::InDevice, End::InMemory),
            Way::Through => (End::InMemory, End::InDevice),
        }
    }

    // A cycle of the channel's device, in which DONE counts.
    pub(crate) fn is_device_cycle(self, config: Config) -> bool
        ensures { result ≡ is_device_cycle self config }
    {
        let (from, to) = self.ends(config);
        from == End::InDevice || to == End::InDevice
    }

    // The place that is sent.
    pub(crate) fn place(self, channel: &Channel) -> Place
        ensures { result ≡ record { code = slot_code self channel.now; address = slot_address self channel.now } }
    {
        let Registers {
            config,
            counters,
            ..
        } = channel.registers;
        let (code, register) = match self.side {
            Side::Memory => (counters.mfc, counters.mar),
            Side::Device => (config.dfc, counters.dar),
        };
        Place {
            code,
            address: sent(register, self.offset),
        }
    }

    fn count(self) -> usize
        ensures { result ≡ count_of self.word }
    {
        if self.word { 2 } else { 1 }
    }

    // Whether the device is ready, if bytes come from it or go to it.
    pub(crate) fn is_ready<D: DeviceBank>(self, number: u8, config: Config, devices: &D) -> bool
        ensures { result ≡ is_slot_ready self number config (D.DeviceBank.bank devices.now) }
    {
        let (from, to) = self.ends(config);
        (from != End::InDevice || devices.can_give(number, self.count()))
            && (to != End::InDevice || devices.can_take(number, self.count()))
    }

    // Whether the place is answered, if bytes come from memory or go to it.
    pub(crate) fn is_answered<M: Memory>(self, channel: &Channel, memory: &M) -> bool
        ensures { result ≡ is_slot_answered self channel.now (M.Memory.means memory.now) }
    {
        let (from, to) = self.ends(channel.registers.config);
        let place = self.place(channel);
        if self.word {
            (from != End::InMemory || memory.is_word_readable(place))
                && (to != End::InMemory || memory.is_word_writable(place))
        } else {
            (from != End::InMemory || memory.is_readable(place))
                && (to != End::InMemory || memory.is_writable(place))
        }
    }

    // What the channel holds after this cycle has moved these data.
    pub(crate) fn held_after(self, bytes: Data, held: Held) -> Held
        ensures { result ≡ held_after self.way bytes self.word held }
    {
        match self.way {
            Way::Source => with_more(held, bytes),
            Way::Destination => rest_of(held, self.word),
            Way::Through => held,
        }
    }
}

impl Data {
    fn of_byte(got: Option<u8>) -> Data
        ensures { result ≡ byte_data got }
    {
        Data::Byte(got.unwrap_or(0))
    }

    fn of_word(got: Option<(u8, u8)>) -> Data
        ensures { result ≡ word_data got }
    {
        let (high, low) = got.unwrap_or((0, 0));
        Data::Word(high, low)
    }
}

// A memory and a bank of devices are asked by methods of their own, so that each has its own two functions here.
fn read_memory<M: Memory>(memory: &M, place: Place, word: bool) -> Data
    ensures { result ≡ (if word then word_data (word_read place.code place.address (M.Memory.means memory.now)) else byte_data (byte_read place.code place.address (M.Memory.means memory.now))) }
{
    if word {
        Data::of_word(memory.read_word(place))
    } else {
        Data::of_byte(memory.read(place))
    }
}

fn read_device<D: DeviceBank>(devices: &mut D, channel: u8, word: bool) -> Data
    ensures value { result ≡ (if word then word_data (word_handed channel (D.DeviceBank.bank devices.old)) else byte_data (byte_handed channel (D.DeviceBank.bank devices.old))) }
    ensures after { D.DeviceBank.bank devices.new ≡ give_tried channel (count_of word) (D.DeviceBank.bank devices.old) }
    ensures lent { D.DeviceBank.loans devices.new ≡ D.DeviceBank.loans devices.old }
{
    if word {
        Data::of_word(devices.give_word(channel))
    } else {
        Data::of_byte(devices.give(channel))
    }
}

fn write_memory<M: Memory>(memory: &mut M, place: Place, bytes: Data)
    ensures after { M.Memory.means memory.new ≡ data_written bytes place.code place.address (M.Memory.means memory.old) }
    ensures lent { M.Memory.loans memory.new ≡ M.Memory.loans memory.old }
{
    match bytes {
        Data::Byte(byte) => memory.write(place, byte),
        Data::Word(high, low) => memory.write_word(place, high, low),
    }
}

fn write_device<D: DeviceBank>(devices: &mut D, channel: u8, bytes: Data)
    ensures after { D.DeviceBank.bank devices.new ≡ take_tried channel (data_bytes bytes) (D.DeviceBank.bank devices.old) }
    ensures lent { D.DeviceBank.loans devices.new ≡ D.DeviceBank.loans devices.old }
{
    match bytes {
        Data::Byte(byte) => devices.take(channel, byte),
        Data::Word(high, low) => devices.take_word(channel, high, low),
    }
}

impl<M: Memory, D: DeviceBank> Surroundings<M, D> {
    // The data of a cycle of channel `number`, from their source.
    pub(crate) fn get(
        &mut self,
        from: End,
        number: u8,
        place: Place,
        word: bool,
        held: Held,
    ) -> Data
        ensures value { result ≡ data_got from number place.code place.address word held (M.Memory.means self.old.memory) (D.DeviceBank.bank self.old.devices) }
        ensures memory { M.Memory.means self.new.memory ≡ M.Memory.means self.old.memory }
        ensures bank { D.DeviceBank.bank self.new.devices ≡ bank_got from number word (D.DeviceBank.bank self.old.devices) }
        ensures lent { loans_of M.Memory.loans D.DeviceBank.loans self.new ≡ loans_of M.Memory.loans D.DeviceBank.loans self.old }
    {
        match from {
            End::InMemory => read_memory(&self.memory, place, word),
            End::InDevice => read_device(&mut self.devices, number, word),
            End::InChannel => first_of(held, word),
        }
    }

    // The data of a cycle of channel `number`, to their destination.
    pub(crate) fn put(&mut self, to: End, number: u8, place: Place, bytes: Data)
        ensures memory { M.Memory.means self.new.memory ≡ memory_put to bytes place.code place.address (M.Memory.means self.old.memory) }
        ensures bank { D.DeviceBank.bank self.new.devices ≡ bank_put to bytes number (D.DeviceBank.bank self.old.devices) }
        ensures lent { loans_of M.Memory.loans D.DeviceBank.loans self.new ≡ loans_of M.Memory.loans D.DeviceBank.loans self.old }
    {
        match to {
            End::InMemory => write_memory(&mut self.memory, place, bytes),
            End::InDevice => write_device(&mut self.devices, number, bytes),
            End::InChannel => {}
        }
    }
}
