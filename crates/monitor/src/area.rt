// Filling and showing areas of a memory.
ghost use Rattle.std.specs.Prelude.{◌≡◌, ◌+◌, ◌≤◌, ◌++◌, length, OnOk};
ghost use Rattle.script.specs.Digits.{data_bytes};
ghost use Rattle.monitor.specs.Area.{is_past_the_end, takes_all, filled, byte_shown, area_text};

use bus::memory::{Memory, Place};
use bus::store::{is_storable, store};
use script::text::{DataBytes, data_count, put_pair};
use std::alloc::AllocError;
use std::ops::Range;

// The function code of the processor's own data.
const CODE: u8 = 5;

// The addresses that a script reaches are below this one.
const END: usize = 0x1000;

// A place that a script reaches.
fn place(address: u32) -> Place
    ensures { result ≡ record { code = 5; address = address } }
{
    Place {
        code: CODE,
        address,
    }
}

pub(crate) fn is_past_the_end(address: u32, count: usize) -> bool
    ensures { result ≡ is_past_the_end address count }
{
    count > END || address as usize + count > END
}

// The addresses that the bytes of these digits go to, from `address` on.
fn addresses(address: u32, digits: &[u8]) -> Range<u32>
    requires { address + length (data_bytes digits.now) ≤ 0x1000 }
    ensures { result ≡ record { start = address; end = address + length (data_bytes digits.now) } }
{
    address..address + data_count(digits) as u32
}

pub(crate) fn takes_all<M: Memory>(memory: &M, address: u32, digits: &[u8]) -> bool
    requires { address + length (data_bytes digits.now) ≤ 0x1000 }
    ensures { result ≡ takes_all address (data_bytes digits.now) (M.Memory.means memory.now) }
{
    addresses(address, digits).all(|at| is_storable(memory, place(at)))
}

pub(crate) fn fill<M: Memory>(memory: &mut M, address: u32, digits: &[u8])
    requires { address + length (data_bytes digits.now) ≤ 0x1000 }
    ensures { M.Memory.means memory.new ≡ filled address (data_bytes digits.now) (M.Memory.means memory.old) }
{
    for (at, byte) in addresses(address, digits).zip(DataBytes::of(digits)) {
        let _ = store(memory, place(at), byte);
    }
}

fn byte_shown<M: Memory>(memory: &M, address: u32) -> u8
    ensures { result ≡ byte_shown address (M.Memory.means memory.now) }
{
    memory.read(place(address)).unwrap_or(0)
}

pub(crate) fn put_area<M: Memory>(
    memory: &M,
    address: u32,
    count: u8,
    out: &mut Vec<u8>,
) -> Result<(), AllocError>
    requires { address + count ≤ 0x1000 }
    ensures { OnOk result (out.new.items ≡ out.old.items ++ area_text address count (M.Memory.means memory.now)) }
{
    for at in address..address + u32::from(count) {
        put_pair(out, byte_shown(memory, at))?;
    }
    Ok(())
}
