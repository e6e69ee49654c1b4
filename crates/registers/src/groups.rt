// The registers of a channel, grouped by when they may change. The default of each is what it holds at first.
ghost use Rattle.std.specs.Prelude.{◌≡◌};
ghost use Rattle.registers.specs.Groups.{initial_vectors};

// What stays as it is while the channel is active: device control, operation control, sequence control, and
// the function code of the device side.
#[derive(Clone, Copy, PartialEq, Eq, Debug, Default)]
pub struct Config {
    pub dcr: u8,
    pub ocr: u8,
    pub scr: u8,
    pub dfc: u8,
}

// What an operation moves on: the transfer counter, the memory and device addresses, and the function code
// of the memory side.
#[derive(Clone, Copy, PartialEq, Eq, Debug, Default)]
pub struct Counters {
    pub mtc: u16,
    pub mar: u32,
    pub dar: u32,
    pub mfc: u8,
}

// Where the next block comes from: the base counter, the base address and the base function code.
#[derive(Clone, Copy, PartialEq, Eq, Debug, Default)]
pub struct Table {
    pub btc: u16,
    pub bar: u32,
    pub bfc: u8,
}

// The status byte and the code of the first error.
#[derive(Clone, Copy, PartialEq, Eq, Debug, Default)]
pub struct Status {
    pub csr: u8,
    pub cer: u8,
}

// The control byte, of which the continue, halt and interrupt bits are stored.
#[derive(Clone, Copy, PartialEq, Eq, Debug, Default)]
pub struct Control {
    pub ccr: u8,
}

// The normal and the error interrupt vector, and the channel's priority.
#[derive(Clone, Copy, PartialEq, Eq, Debug)]
pub struct Vectors {
    pub niv: u8,
    pub eiv: u8,
    pub cpr: u8,
}

// $0F is the processor's vector of an interrupt that was not initialized.
impl Default for Vectors {
    ghost is_default = { λ v. v ≡ initial_vectors };

    fn default() -> Vectors {
        Vectors {
            niv: 0x0F,
            eiv: 0x0F,
            cpr: 0,
        }
    }
}

// All registers of a channel.
#[derive(Clone, Copy, PartialEq, Eq, Debug, Default)]
pub struct Registers {
    pub config: Config,
    pub counters: Counters,
    pub table: Table,
    pub status: Status,
    pub control: Control,
    pub vectors: Vectors,
}

// How many bytes an operand has.
#[derive(Clone, Copy, PartialEq, Eq, Debug)]
pub enum Size {
    Byte,
    Word,
    Long,
}

// Where an operation's blocks come from: the registers alone, an array of entries, or linked entries.
#[derive(Clone, Copy, PartialEq, Eq, Debug)]
pub enum Chain {
    Plain,
    Array,
    Linked,
}

// Where requests come from: from the channel itself, at a limited rate or at full speed; from the request line; or
// for an operation's first operand from the channel and then from the line.
#[derive(Clone, Copy, PartialEq, Eq, Debug)]
pub enum Requests {
    LimitedRate,
    MaximumRate,
    Line,
    FirstAutomatic,
}

// When the request line counts: while it is on, or as it changes from off to on.
#[derive(Clone, Copy, PartialEq, Eq, Debug)]
pub(crate) enum RequestMode {
    Burst,
    CycleSteal,
}

// How the device side is addressed: dual, where automatic requests move memory; dual, always a device; or single.
#[derive(Clone, Copy, PartialEq, Eq, Debug)]
pub(crate) enum DeviceType {
    Dual,
    DualDevice,
    Single,
}

// Where an address goes after an operand.
#[derive(Clone, Copy, PartialEq, Eq, Debug)]
pub(crate) enum Counting {
    Still,
    Up,
    Down,
}
