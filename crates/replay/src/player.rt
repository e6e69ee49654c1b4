// A controller with its memory, its devices and its trace, and what it answers to each line.
use crate::device::Device;
use crate::line::{Line, Question};
use crate::print::{put_bytes, put_moved, put_number, put_read_byte, put_records, put_reply};
use audit::call::Call;
use audit::perform::perform;
use bus::flat::PLACES;
use bus::memory::{Memory, Place};
use cycle::record::Record;
use cycle::surroundings::Surroundings;
use devices::pair::Pair;
use devices::printer::Printer;
use devices::tape::Tape;
use dmac::controller::Dmac;
use queue::{Queue, move_oldest};
use script::text::{put_pair, put_text};
use std::alloc::AllocError;

// The device of one channel.
pub type Single<'a> = Device<Tape<'a>, Printer<'a>>;

// The devices of two channels.
pub type Two<'a> = Pair<Single<'a>, Single<'a>>;

// The devices of all four channels.
pub type Four<'a> = Pair<Two<'a>, Two<'a>>;

// The offset of the general control register.
const GENERAL: u8 = 0xFF;

// The offset and the bytes of each register, in the order in which they are shown.
const SHOWN: [(u8, u8); 17] = [
    (0x00, 1),
    (0x01, 1),
    (0x04, 1),
    (0x05, 1),
    (0x06, 1),
    (0x07, 1),
    (0x0A, 2),
    (0x1A, 2),
    (0x0C, 4),
    (0x14, 4),
    (0x1C, 4),
    (0x25, 1),
    (0x27, 1),
    (0x29, 1),
    (0x31, 1),
    (0x39, 1),
    (0x2D, 1),
];

// A function code of a memory's lower part, or of its only one.
const LOWER: u8 = 1;

// A function code of a memory's upper part.
pub const UPPER: u8 = 5;

// No address is at or above this one.
const ADDRESSES: u32 = PLACES as u32;

// `upper` is a function code of the memory's upper part, if it has two; `moved` has a place for each record that the trace
// can hold.
#[derive(Drop)]
pub struct Player<'a, M: Memory> {
    pub dmac: Dmac,
    pub around: Surroundings<M, Four<'a>>,
    pub upper: Option<u8>,
    pub trace: Queue<'a, Record>,
    pub moved: Vec<Record>,
}

impl<'a, M: Memory> Player<'a, M> {
    // Does what a line says, and prints the answer.
    pub fn play(&mut self, line: Line, out: &mut Vec<u8>) -> Result<(), AllocError> {
        // Each arm is another function, with data of its own; so in `tell`.
        match line {
            Line::Make(call) => self.make(call, out),
            Line::Empty { count } => self.empty(count as usize, out),
            Line::Ask(question) => self.tell(question, out),
        }
    }

    // Makes a call, and prints what it replies.
    fn make(&mut self, call: Call, out: &mut Vec<u8>) -> Result<(), AllocError> {
        let reply = perform(&mut self.dmac, &mut self.around, &mut self.trace, call);
        put_reply(out, reply)
    }

    // Answers a question.
    fn tell(&self, question: Question, out: &mut Vec<u8>) -> Result<(), AllocError> {
        match question {
            Question::Registers { channel } => self.registers(channel, out),
            Question::General => self.register(GENERAL, 1, out),
            Question::Peek { place, count } => self.peek(place, count, out),
            Question::Bytes { upper: false } => self.all_bytes(LOWER, out),
            Question::Bytes { upper: true } => match self.upper {
                Some(code) => self.all_bytes(code, out),
                None => put_text(out, b"bad line"),
            },
            Question::Device { channel } => self.device(channel, out),
        }
    }

    // Moves the oldest records out of the trace, and prints them with a semicolon between two.
    fn empty(&mut self, count: usize, out: &mut Vec<u8>) -> Result<(), AllocError> {
        let moved = move_oldest(&mut self.trace, &mut self.moved, count);
        put_moved(out, moved)?;
        put_records(out, &self.moved, moved)
    }

    // The registers of a channel, with a blank between two.
    fn registers(&self, channel: u8, out: &mut Vec<u8>) -> Result<(), AllocError> {
        let base = channel.wrapping_mul(64);
        for (index, (offset, width)) in SHOWN.iter().enumerate() {
            if index > 0 {
                put_text(out, b" ")?;
            }
            self.register(base.wrapping_add(*offset), *width, out)?;
        }
        Ok(())
    }

    // A register of so many bytes. They are counted from 0, since nothing here bounds an offset and a width together.
    fn register(&self, offset: u8, width: u8, out: &mut Vec<u8>) -> Result<(), AllocError> {
        for byte in 0..width {
            put_read_byte(out, self.dmac.read_byte(offset.wrapping_add(byte)))?;
        }
        Ok(())
    }

    // The bytes from a place on; two hyphens for one that is not answered. (An address and a count may end past a u32, so
    // that they are no range.)
    fn peek(&self, place: Place, count: u32, out: &mut Vec<u8>) -> Result<(), AllocError> {
        let mut at = place;
        for _ in 0..count.min(ADDRESSES) {
            match self.around.memory.read(at) {
                Some(byte) => put_pair(out, byte)?,
                None => put_text(out, b"--")?,
            }
            at = at.next();
        }
        Ok(())
    }

    // All bytes that a function code names.
    fn all_bytes(&self, code: u8, out: &mut Vec<u8>) -> Result<(), AllocError> {
        let memory = &self.around.memory;
        for byte in (0..ADDRESSES).map_while(|address| memory.read(Place { code, address })) {
            put_pair(out, byte)?;
        }
        Ok(())
    }

    // What waits in the device of a channel, what it keeps and how many places are free.
    fn device(&self, channel: u8, out: &mut Vec<u8>) -> Result<(), AllocError> {
        match self.device_of(channel) {
            Device::Tape(tape) => {
                put_bytes(out, tape.rest)?;
                put_text(out, b" / - / 0")
            }
            Device::Printer(printer) => {
                put_text(out, b"- / ")?;
                put_page(&printer.page, out)
            }
        }
    }

    fn device_of(&self, channel: u8) -> &Single<'a> {
        let devices = &self.around.devices;
        match channel {
            0 => &devices.first.first,
            1 => &devices.first.second,
            2 => &devices.second.first,
            _ => &devices.second.second,
        }
    }
}

// What a printer keeps, a hyphen where that is nothing, and how many places are free. (The page may lie in two parts, so
// that it is no slice to show.)
fn put_page(page: &Queue<'_, u8>, out: &mut Vec<u8>) -> Result<(), AllocError> {
    if page.is_empty() {
        put_text(out, b"-")?;
    }
    for byte in page.iter() {
        put_pair(out, *byte)?;
    }
    put_text(out, b" / ")?;
    put_number(out, page.room())
}
