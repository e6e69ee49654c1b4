// One cycle of a channel.
ghost use Rattle.std.specs.Prelude.{◌≡◌, ◌<◌, ◌≤◌, Ok, OnSome};
ghost use Rattle.bus.specs.Memory.{MemoryMeaning};
ghost use Rattle.devices.specs.Bank.{BankMeaning};
ghost use Rattle.channel.specs.Operation.{words_read};
ghost use Rattle.cycle.specs.Plan.{plan};
ghost use Rattle.cycle.specs.Surroundings.{within, loans_of};
ghost use Rattle.cycle.specs.Serve.{Served, left, Kept, kind_by, side_fault, begun_at, operand_moved, slot_carried, slot_data, slot_at, next_fault, operand_served, entry_served, served, bus_fault, is_entry_misplaced};

use crate::carry::sent;
use crate::plan::{Side, Slot, Way, plan};
use crate::record::{Data, Kind, Record};
use crate::surroundings::Surroundings;
use bus::memory::{Memory, Place};
use channel::state::{Channel, Held, Phase, Words};
use devices::bank::DeviceBank;
use registers::config::is_odd;
use registers::fault::Fault;
use registers::groups::Config;

// What keeps a cycle from being carried out: its device is not ready, or a place is not answered.
#[derive(Clone, Copy, PartialEq, Eq, Debug)]
pub enum Hindrance {
    Waiting,
    Failed(Fault),
}

// How far an operand has come: the cycles done, the bytes held, and whether the device has signalled DONE. (It is no
// part of the phase: the phase has its data in its cases, and before an operand's first cycle the channel is idle.)
#[derive(Clone, Copy)]
struct Progress {
    cycles: u8,
    held: Held,
    done: bool,
}

impl Slot {
    fn kind(self, config: Config) -> Kind
        ensures { result ≡ kind_by self.way config }
    {
        match self.way {
            Way::Source => Kind::Read,
            Way::Destination => Kind::Write,
            Way::Through if config.is_inward() => Kind::Write,
            Way::Through => Kind::Read,
        }
    }

    fn fault(self) -> Fault
        ensures { result ≡ side_fault self.side }
    {
        match self.side {
            Side::Memory => Fault::MemoryBus,
            Side::Device => Fault::DeviceBus,
        }
    }
}

// Where the channel stands after cycle number `cycles` of an operand.
fn advance(channel: &mut Channel, last: bool, progress: Progress)
    requires { progress.cycles < 255 }
    ensures { channel.new ≡ operand_moved last progress.cycles progress.held progress.done channel.old }
{
    if progress.cycles == 0 {
        channel.begin_operand();
    }
    if last {
        channel.deliver(progress.done);
    } else {
        channel.phase = Phase::Inside {
            cycles: progress.cycles + 1,
            held: progress.held,
            done: progress.done,
        };
    }
}

// Carries out a cycle whose device is ready and whose place is answered. (A struct of the channel and its surroundings
// would hold both by `&mut`, and each of its methods would also have to promise that it keeps those references.)
fn carry<M: Memory, D: DeviceBank>(
    slot: Slot,
    last: bool,
    progress: Progress,
    number: u8,
    channel: &mut Channel,
    around: &mut Surroundings<M, D>,
) -> Record
    requires { progress.cycles < 255 }
    ensures all { within M.Memory.means D.DeviceBank.bank around.new (left (Ok result) channel.new) ≡ within M.Memory.means D.DeviceBank.bank around.old (λ m b. slot_carried slot last progress.cycles progress.held progress.done (slot_data slot number progress.held channel.old m b) number channel.old m b) }
    ensures lent { loans_of M.Memory.loans D.DeviceBank.loans around.new ≡ loans_of M.Memory.loans D.DeviceBank.loans around.old }
{
    let config = channel.registers.config;
    let (from, to) = slot.ends(config);
    let place = slot.place(channel);
    let bytes = around.get(from, number, place, slot.word, progress.held);
    around.put(to, number, place, bytes);
    let held = slot.held_after(bytes, progress.held);
    advance(channel, last, Progress { held, ..progress });
    Record::Cycle {
        channel: number,
        kind: slot.kind(config),
        code: place.code,
        address: place.address,
        data: bytes,
    }
}

// The cycle of an operand that comes after so many, and whether it is the last.
fn next_slot(config: Config, cycles: u8) -> Option<(Slot, bool)>
    ensures slot { result ≡ slot_at cycles (plan config) }
    ensures few { OnSome result (cycles < 255) }
{
    let slots = plan(config);
    let at = cycles as usize;
    Some((*slots.get(at)?, at + 1 == slots.len()))
}

// The next cycle of an operand, or what keeps it from being carried out.
fn serve_operand<M: Memory, D: DeviceBank>(
    progress: Progress,
    line: bool,
    number: u8,
    channel: &mut Channel,
    around: &mut Surroundings<M, D>,
) -> Result<Record, Hindrance>
    ensures all { within M.Memory.means D.DeviceBank.bank around.new (left result channel.new) ≡ within M.Memory.means D.DeviceBank.bank around.old (operand_served progress.cycles progress.held progress.done line number channel.old) }
    ensures kept { Kept result channel.old (M.Memory.means around.old.memory) (D.DeviceBank.bank around.old.devices) channel.new (M.Memory.means around.new.memory) (D.DeviceBank.bank around.new.devices) }
    ensures lent { loans_of M.Memory.loans D.DeviceBank.loans around.new ≡ loans_of M.Memory.loans D.DeviceBank.loans around.old }
{
    let config = channel.registers.config;
    let (slot, last) = next_slot(config, progress.cycles).ok_or(Hindrance::Waiting)?;
    if !slot.is_ready(number, config, &around.devices) {
        return Err(Hindrance::Waiting);
    }
    if !slot.is_answered(channel, &around.memory) {
        return Err(Hindrance::Failed(slot.fault()));
    }
    let done = progress.done || (line && slot.is_device_cycle(config));
    let progress = Progress { done, ..progress };
    Ok(carry(slot, last, progress, number, channel, around))
}

// The next word of an entry.
fn serve_entry<M: Memory>(
    words: Words,
    number: u8,
    channel: &mut Channel,
    memory: &M,
) -> Result<Record, Hindrance>
    ensures all { (b : BankMeaning) → left result channel.new (M.Memory.means memory.now) b ≡ entry_served words number channel.old (M.Memory.means memory.now) b }
    ensures kept { (m : MemoryMeaning) (b : BankMeaning) → Kept result channel.old m b channel.new m b }
{
    let code = channel.registers.table.bfc;
    let address = sent(channel.registers.table.bar, 2 * words_read(words));
    let (high, low) = memory
        .read_word(Place { code, address })
        .ok_or(Hindrance::Failed(Fault::BaseBus))?;
    channel.take_entry_word(u16::from_be_bytes([high, low]), words);
    Ok(Record::Cycle {
        channel: number,
        kind: Kind::Entry,
        code,
        address,
        data: Data::Word(high, low),
    })
}

fn words_read(words: Words) -> u32
    ensures bound { result ≤ 4 }
    ensures count { result ≡ words_read words }
{
    match words {
        Words::NoWord => 0,
        Words::OneWord(_) => 1,
        Words::TwoWords(_, _) => 2,
        Words::ThreeWords(_, _, _) => 3,
        Words::FourWords(_, _, _, _) => 4,
    }
}

// One cycle of a channel with this number: the next of its operand or entry. `line` is the DONE line.
pub fn serve<M: Memory, D: DeviceBank>(
    channel: &mut Channel,
    number: u8,
    around: &mut Surroundings<M, D>,
    line: bool,
) -> Result<Record, Hindrance>
    ensures all { within M.Memory.means D.DeviceBank.bank around.new (left result channel.new) ≡ within M.Memory.means D.DeviceBank.bank around.old (served line number channel.old) }
    ensures kept { Kept result channel.old (M.Memory.means around.old.memory) (D.DeviceBank.bank around.old.devices) channel.new (M.Memory.means around.new.memory) (D.DeviceBank.bank around.new.devices) }
    ensures lent { loans_of M.Memory.loans D.DeviceBank.loans around.new ≡ loans_of M.Memory.loans D.DeviceBank.loans around.old }
{
    match channel.phase {
        Phase::Idle => {
            let progress = Progress {
                cycles: 0,
                held: Held::NoByte,
                done: false,
            };
            serve_operand(progress, line, number, channel, around)
        }
        Phase::Fetching(words) => serve_entry(words, number, channel, &around.memory),
        Phase::Inside { cycles, held, done } => {
            let progress = Progress { cycles, held, done };
            serve_operand(progress, line, number, channel, around)
        }
    }
}

fn slot_fault(config: Config, cycles: u8) -> Fault
    ensures { result ≡ next_fault (slot_at cycles (plan config)) }
{
    next_slot(config, cycles).map_or(Fault::MemoryBus, |(slot, _)| slot.fault())
}

// The error that a bus error in the channel's next cycle is.
pub fn bus_fault(channel: &Channel) -> Fault
    ensures { result ≡ bus_fault channel.now }
{
    match channel.phase {
        Phase::Idle => slot_fault(channel.registers.config, 0),
        Phase::Fetching(_) => Fault::BaseBus,
        Phase::Inside { cycles, .. } => slot_fault(channel.registers.config, cycles),
    }
}

// Whether the channel is to read the first word of an entry at an odd address.
pub fn is_entry_misplaced(channel: &Channel) -> bool
    ensures { result ≡ is_entry_misplaced channel.now }
{
    match channel.phase {
        Phase::Fetching(Words::NoWord) => is_odd(channel.registers.table.bar),
        _ => false,
    }
}
