// The set-up lines: the memory, the devices and the trace, in this order.
use crate::fields::{BadLine, Fields, LineError, bytes, decimal, hex};
use bus::flat::PLACES;
use std::alloc::{AllocError, Global};

// The bytes of a memory; of a split one, codes 4 to 7 go to `upper` and codes 0 to 3 to `lower`.
#[derive(Drop)]
pub enum Contents {
    Flat(Vec<u8>),
    Split { upper: Vec<u8>, lower: Vec<u8> },
}

// The bytes of a tape, or the places of a printer.
#[derive(Drop)]
pub enum Medium {
    Tape(Vec<u8>),
    Printer(Vec<u8>),
}

// A number of bytes or places; neither a memory, nor a printer, nor a trace has more than 24 address bits reach.
fn size(number: u32) -> Result<usize, BadLine> {
    match number as usize {
        size if size <= PLACES => Ok(size),
        _ => Err(BadLine),
    }
}

fn zeros(heap: Global, size: usize) -> Result<Vec<u8>, AllocError> {
    vec![in heap; 0; size]
}

// The bytes of a memory.
fn memory_bytes(heap: Global, field: &[u8]) -> Result<Vec<u8>, LineError> {
    let bytes = bytes(heap, field)?;
    if bytes.len() <= PLACES {
        Ok(bytes)
    } else {
        Err(LineError::BadLine)
    }
}

// `mem zero N`, `mem flat HEX` or `mem split HEX HEX`
pub fn memory(heap: Global, line: &[u8]) -> Result<Contents, LineError> {
    match Fields::of(line).as_slice() {
        [b"mem", b"zero", count] => Ok(Contents::Flat(zeros(heap, size(hex(count)?)?)?)),
        [b"mem", b"flat", bytes] => Ok(Contents::Flat(memory_bytes(heap, bytes)?)),
        [b"mem", b"split", upper, lower] => Ok(Contents::Split {
            upper: memory_bytes(heap, upper)?,
            lower: memory_bytes(heap, lower)?,
        }),
        _ => Err(LineError::BadLine),
    }
}

// `tape:HEX` or `printer:PLACES`
fn medium_of(heap: Global, field: &[u8]) -> Result<Medium, LineError> {
    if let Some(digits) = field.strip_prefix(b"tape:") {
        return Ok(Medium::Tape(bytes(heap, digits)?));
    }
    let places = field.strip_prefix(b"printer:").ok_or(LineError::BadLine)?;
    Ok(Medium::Printer(zeros(heap, size(decimal(places)?)?)?))
}

// `bank D D D D`, the devices of the four channels
pub fn bank(heap: Global, line: &[u8]) -> Result<[Medium; 4], LineError> {
    match Fields::of(line).as_slice() {
        [b"bank", first, second, third, fourth] => Ok([
            medium_of(heap, first)?,
            medium_of(heap, second)?,
            medium_of(heap, third)?,
            medium_of(heap, fourth)?,
        ]),
        _ => Err(LineError::BadLine),
    }
}

// `trace N`
pub fn trace(line: &[u8]) -> Result<usize, LineError> {
    match Fields::of(line).as_slice() {
        [b"trace", places] => Ok(size(decimal(places)?)?),
        _ => Err(LineError::BadLine),
    }
}
