// Calls as values.
use dmac::answer::Answer;
use dmac::run::Ran;

// A call of the controller: a register byte or word read (offset) or written (offset, value), a request line set
// (channel, level), a bus step (exception code, DONE), a byte stored for the processor (function code, address, value),
// or a run of so many steps. (A store's place is two numbers, as the definitions of histories have it.)
#[derive(Clone, Copy, PartialEq, Eq, Debug)]
pub enum Call {
    ReadByte(u8),
    ReadWord(u8),
    WriteByte(u8, u8),
    WriteWord(u8, u16),
    SetLine(u8, bool),
    Step(u8, bool),
    Store(u8, u32, u8),
    Run(u16),
}

// What a call replies that is not refused: a register's byte or word, that it was done, what a step answered, or what a
// run told.
#[derive(Clone, Copy, PartialEq, Eq, Debug)]
pub enum Reply {
    Byte(u8),
    Word(u16),
    Done,
    Stepped(Answer),
    Ended(Ran),
}
