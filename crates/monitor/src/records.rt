// Printing what a run did. The bytes of a line are put together by hand: by `write!` it would take many times as long.
ghost use Rattle.std.specs.Prelude.{◌≡◌, ◌++◌, OnOk};
ghost use Rattle.queue.specs.Queue.{held};
ghost use Rattle.monitor.specs.Records.{kind_letter, data_text, address_text, head_text, record_text, records_text, ending_text};

use cycle::record::{Data, Kind, Record};
use dmac::run::Ending;
use queue::Queue;
use script::text::{hex_pair, put_byte, put_text};
use std::alloc::AllocError;

// The letter of a cycle, as a byte.
fn letter(kind: Kind) -> u8
    ensures { result ≡ kind_letter kind }
{
    kind.letter() as u8
}

// The data of a cycle, and the end of the line.
fn put_data(out: &mut Vec<u8>, bytes: Data) -> Result<(), AllocError>
    ensures { OnOk result (out.new.items ≡ out.old.items ++ data_text bytes) }
{
    match bytes {
        Data::Byte(a) => {
            let [h, l] = hex_pair(a);
            put_text(out, &[h, l, b'\n'])
        }
        Data::Word(a, b) => {
            let [h, l] = hex_pair(a);
            let [k, m] = hex_pair(b);
            put_text(out, &[h, l, k, m, b'\n'])
        }
    }
}

// The channel, a letter, and a blank after each.
fn put_head(out: &mut Vec<u8>, channel: u8, letter: u8) -> Result<(), AllocError>
    ensures { OnOk result (out.new.items ≡ out.old.items ++ head_text channel letter) }
{
    let [_, number] = hex_pair(channel);
    put_text(out, &[number, b' ', letter, b' '])
}

// An address, and a blank.
fn put_address(out: &mut Vec<u8>, address: u32) -> Result<(), AllocError>
    ensures { OnOk result (out.new.items ≡ out.old.items ++ address_text address) }
{
    let [_, high, mid, low] = address.to_be_bytes();
    let [a, b] = hex_pair(high);
    let [c, d] = hex_pair(mid);
    let [e, f] = hex_pair(low);
    put_text(out, &[a, b, c, d, e, f, b' '])
}

fn put_place(out: &mut Vec<u8>, address: u32, bytes: Data) -> Result<(), AllocError>
    ensures { OnOk result (out.new.items ≡ out.old.items ++ (address_text address ++ data_text bytes)) }
{
    put_address(out, address)?;
    put_data(out, bytes)
}

fn put_cycle(
    out: &mut Vec<u8>,
    channel: u8,
    letter: u8,
    address: u32,
    bytes: Data,
) -> Result<(), AllocError>
    ensures { OnOk result (out.new.items ≡ out.old.items ++ (head_text channel letter ++ (address_text address ++ data_text bytes))) }
{
    put_head(out, channel, letter)?;
    put_place(out, address, bytes)
}

// The line of a record.
fn put_record(out: &mut Vec<u8>, told: Record) -> Result<(), AllocError>
    ensures { OnOk result (out.new.items ≡ out.old.items ++ record_text told) }
{
    match told {
        Record::Cycle {
            channel,
            kind,
            code: _,
            address,
            data,
        } => put_cycle(out, channel, letter(kind), address, data),
        Record::Error { channel, fault } => {
            put_head(out, channel, b'F')?;
            put_byte(out, fault.code())
        }
    }
}

pub(crate) fn put_ending(out: &mut Vec<u8>, ending: Ending) -> Result<(), AllocError>
    ensures { OnOk result (out.new.items ≡ out.old.items ++ ending_text ending) }
{
    match ending {
        Ending::Done => put_text(out, b"done\n"),
        Ending::Idle => put_text(out, b"idle\n"),
        Ending::Waiting => put_text(out, b"waiting\n"),
        Ending::Full => put_text(out, b"full\n"),
    }
}

// A line for each record, the oldest first.
pub(crate) fn put_records(out: &mut Vec<u8>, trace: &Queue<'_, Record>) -> Result<(), AllocError>
    ensures { OnOk result (out.new.items ≡ out.old.items ++ records_text (held trace.now)) }
{
    for told in trace.iter() {
        put_record(out, *told)?;
    }
    Ok(())
}
