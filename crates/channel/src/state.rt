// A channel: registers, phase and request state.
ghost use Rattle.std.specs.Prelude.{◌≡◌};
ghost use Rattle.channel.specs.State.{new_channel, channel_failed, channel_reset};

use registers::fault::Fault;
use registers::groups::{Config, Registers};

// The words of a table entry that were read so far.
// Not an array: that would need a length beside it, and would hold words that mean nothing.
#[derive(Clone, Copy, PartialEq, Eq, Debug)]
pub enum Words {
    NoWord,
    OneWord(u16),
    TwoWords(u16, u16),
    ThreeWords(u16, u16, u16),
    FourWords(u16, u16, u16, u16),
}

// The bytes of an operand that were read and are not yet written.
// Not an array: that would need a length beside it, and would hold bytes that mean nothing.
#[derive(Clone, Copy, PartialEq, Eq, Debug)]
pub enum Held {
    NoByte,
    OneByte(u8),
    TwoBytes(u8, u8),
}

// Where a channel stands: idle; fetching an entry, with the words that it has (as many as there are, that is
// the number of the word to come); or so many cycles into an operand, with the bytes held and whether the
// device has signalled DONE.
#[derive(Clone, Copy, PartialEq, Eq, Debug, Default)]
pub enum Phase {
    #[default]
    Idle,
    Fetching(Words),
    Inside { cycles: u8, held: Held, done: bool },
}

// `line` is the level of the request line, `latch` an edge of it that no operand has used yet, and `first`
// stands from a start until the operation's first operand begins.
#[derive(Clone, Copy, PartialEq, Eq, Debug, Default)]
pub struct Channel {
    pub registers: Registers,
    pub phase: Phase,
    pub line: bool,
    pub latch: bool,
    pub first: bool,
}

impl Channel {
    // A channel at first: its registers at their defaults, idle, and the request line off.
    pub fn new() -> Channel
        ensures { result ≡ new_channel }
    {
        Channel::default()
    }

    // An error in this channel: what is held is dropped, and the channel goes idle.
    pub fn fail(&mut self, fault: Fault)
        ensures { self.new ≡ channel_failed fault self.old }
    {
        self.registers.status.fail(fault);
        self.registers.control.drop_continue();
        self.phase = Phase::Idle;
    }

    // Counters, addresses, function codes and the line's level outlast a reset.
    pub fn reset(&mut self)
        ensures { self.new ≡ channel_reset self.old }
    {
        self.registers = Registers {
            config: Config {
                dfc: self.registers.config.dfc,
                ..Config::default()
            },
            counters: self.registers.counters,
            table: self.registers.table,
            ..Registers::default()
        };
        self.phase = Phase::Idle;
        self.latch = false;
        self.first = false;
    }
}
