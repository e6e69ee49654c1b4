// The texts of answers, put together by bytes: a format would take several times as long, and most of a run is printing.
use audit::call::Reply;
use cycle::record::{Data, Kind, Record};
use dmac::answer::Answer;
use dmac::run::{Ending, Ran};
use refusal::kinds::Refusal;
use script::text::{put_pair, put_text};
use std::alloc::AllocError;

// Bytes as pairs of digits; a hyphen where there are none.
pub fn put_bytes(out: &mut Vec<u8>, bytes: &[u8]) -> Result<(), AllocError> {
    if bytes.is_empty() {
        return put_text(out, b"-");
    }
    for byte in bytes {
        put_pair(out, *byte)?;
    }
    Ok(())
}

// A decimal number.
pub fn put_number(out: &mut Vec<u8>, number: usize) -> Result<(), AllocError> {
    if number >= 10 {
        put_number(out, number / 10)?;
    }
    put_text(out, &[b'0' + (number % 10) as u8])
}

fn put_refusal(out: &mut Vec<u8>, refusal: Refusal) -> Result<(), AllocError> {
    put_text(out, b"refused ")?;
    put_number(out, refusal.number() as usize)
}

// A register's byte, or the number of a refusal.
pub fn put_read_byte(out: &mut Vec<u8>, read: Result<u8, Refusal>) -> Result<(), AllocError> {
    match read {
        Ok(byte) => put_pair(out, byte),
        Err(refusal) => put_refusal(out, refusal),
    }
}

// Two bytes as pairs of digits.
fn put_pairs(out: &mut Vec<u8>, high: u8, low: u8) -> Result<(), AllocError> {
    put_pair(out, high)?;
    put_pair(out, low)
}

fn put_word(out: &mut Vec<u8>, word: u16) -> Result<(), AllocError> {
    let [high, low] = word.to_be_bytes();
    put_pairs(out, high, low)
}

fn put_data(out: &mut Vec<u8>, bytes: Data) -> Result<(), AllocError> {
    match bytes {
        Data::Byte(byte) => put_pair(out, byte),
        Data::Word(high, low) => put_pairs(out, high, low),
    }
}

// An address of 24 bits.
fn put_address(out: &mut Vec<u8>, address: u32) -> Result<(), AllocError> {
    let [_, high, mid, low] = address.to_be_bytes();
    put_pair(out, high)?;
    put_pairs(out, mid, low)
}

// The channel, the letter and the function code of a cycle.
fn put_head(out: &mut Vec<u8>, channel: u8, kind: Kind, code: u8) -> Result<(), AllocError> {
    put_text(out, b"cycle ")?;
    put_number(out, channel as usize)?;
    put_text(out, &[b' ', kind.letter() as u8, b' '])?;
    put_number(out, code as usize)
}

// The place and the bytes of a cycle.
fn put_place(out: &mut Vec<u8>, address: u32, bytes: Data) -> Result<(), AllocError> {
    put_text(out, b" ")?;
    put_address(out, address)?;
    put_text(out, b" ")?;
    put_data(out, bytes)
}

fn put_error(out: &mut Vec<u8>, channel: u8, code: u8) -> Result<(), AllocError> {
    put_text(out, b"error ")?;
    put_number(out, channel as usize)?;
    put_text(out, b" ")?;
    put_pair(out, code)
}

fn put_record(out: &mut Vec<u8>, told: Record) -> Result<(), AllocError> {
    match told {
        Record::Cycle {
            channel,
            kind,
            code,
            address,
            data,
        } => {
            put_head(out, channel, kind, code)?;
            put_place(out, address, data)
        }
        Record::Error { channel, fault } => put_error(out, channel, fault.code()),
    }
}

fn put_answer(out: &mut Vec<u8>, answer: Answer) -> Result<(), AllocError> {
    match answer {
        Answer::Reset => put_text(out, b"reset"),
        Answer::Idle => put_text(out, b"idle"),
        Answer::Halted => put_text(out, b"halted"),
        Answer::Retry => put_text(out, b"retry"),
        Answer::Waiting => put_text(out, b"waiting"),
        Answer::Recorded(told) => put_record(out, told),
    }
}

// The word of an ending, which is also what its Display prints.
fn ending_name(ending: Ending) -> &'static str {
    match ending {
        Ending::Done => "done",
        Ending::Idle => "idle",
        Ending::Waiting => "waiting",
        Ending::Full => "full",
    }
}

fn put_ran(out: &mut Vec<u8>, told: Ran) -> Result<(), AllocError> {
    put_text(out, ending_name(told.ending).as_bytes())?;
    put_text(out, b" ")?;
    put_number(out, told.records as usize)
}

// What a call replies, or the number of its refusal.
pub fn put_reply(out: &mut Vec<u8>, reply: Result<Reply, Refusal>) -> Result<(), AllocError> {
    match reply {
        Ok(Reply::Byte(byte)) => put_pair(out, byte),
        Ok(Reply::Word(word)) => put_word(out, word),
        Ok(Reply::Done) => put_text(out, b"ok"),
        Ok(Reply::Stepped(answer)) => put_answer(out, answer),
        Ok(Reply::Ended(told)) => put_ran(out, told),
        Err(refusal) => put_refusal(out, refusal),
    }
}

// How many records were moved.
pub fn put_moved(out: &mut Vec<u8>, moved: usize) -> Result<(), AllocError> {
    put_text(out, b"moved ")?;
    put_number(out, moved)?;
    put_text(out, b":")
}

// The first so many of these records, with a blank before each and a semicolon between two.
pub fn put_records(out: &mut Vec<u8>, records: &[Record], count: usize) -> Result<(), AllocError> {
    let mut before: &[u8] = b" ";
    for told in records.iter().take(count) {
        put_text(out, before)?;
        put_record(out, *told)?;
        before = b"; ";
    }
    Ok(())
}
