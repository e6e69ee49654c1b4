// The calls and questions that a line can be.
use crate::fields::{BadLine, Fields, decimal, decimal_below, decimal_byte, flag, hex, hex_of};
use audit::call::Call;
use bus::memory::Place;

// A line is a call, the emptying of the trace, or a question.
#[derive(Clone, Copy)]
pub enum Line {
    Make(Call),
    Empty { count: u32 },
    Ask(Question),
}

// What is asked: the registers of a channel, the general control register, bytes of the memory from a place on, all bytes
// of a part of the memory, or what the device of a channel has.
#[derive(Clone, Copy)]
pub enum Question {
    Registers { channel: u8 },
    General,
    Peek { place: Place, count: u32 },
    Bytes { upper: bool },
    Device { channel: u8 },
}

fn call_of(fields: &[&[u8]]) -> Result<Call, BadLine> {
    match fields {
        [b"rb", offset] => Ok(Call::ReadByte(hex_of(offset, 2)?)),
        [b"rw", offset] => Ok(Call::ReadWord(hex_of(offset, 2)?)),
        [b"wb", offset, value] => Ok(Call::WriteByte(hex_of(offset, 2)?, hex_of(value, 2)?)),
        [b"ww", offset, value] => Ok(Call::WriteWord(hex_of(offset, 2)?, hex_of(value, 4)?)),
        [b"req", channel, on] => Ok(Call::SetLine(decimal_byte(channel)?, flag(on)?)),
        [b"store", code, address, byte] => Ok(Call::Store(
            decimal_byte(code)?,
            hex_of(address, 6)?,
            hex_of(byte, 2)?,
        )),
        [b"step", exception, done] => Ok(Call::Step(decimal_byte(exception)?, flag(done)?)),
        [b"run", steps] => Ok(Call::Run(decimal(steps)?)),
        _ => Err(BadLine),
    }
}

fn question_of(fields: &[&[u8]]) -> Result<Question, BadLine> {
    match fields {
        [b"regs", channel] => Ok(Question::Registers {
            channel: decimal_below(channel, 4)?,
        }),
        [b"gcr"] => Ok(Question::General),
        [b"peek", code, address, count] => Ok(Question::Peek {
            place: Place {
                code: decimal_below(code, 8)?,
                address: hex_of(address, 6)?,
            },
            count: hex(count)?,
        }),
        [b"mem?", upper] => Ok(Question::Bytes {
            upper: flag(upper)?,
        }),
        [b"dev?", channel] => Ok(Question::Device {
            channel: decimal_below(channel, 4)?,
        }),
        _ => Err(BadLine),
    }
}

// What a line says.
pub fn parse(text: &[u8]) -> Result<Line, BadLine> {
    let fields = Fields::of(text);
    match fields.as_slice() {
        [b"empty", count] => Ok(Line::Empty {
            count: decimal(count)?,
        }),
        asked @ [b"regs" | b"gcr" | b"peek" | b"mem?" | b"dev?", ..] => {
            Ok(Line::Ask(question_of(asked)?))
        }
        called => Ok(Line::Make(call_of(called)?)),
    }
}
