use bus::flat::Flat;
use bus::memory::{Memory, Place};
use cycle::record::{Data, Kind, Record};
use cycle::surroundings::Surroundings;
use devices::pair::Pair;
use devices::printer::Printer;
use devices::tape::Tape;
use dmac::answer::Answer;
use dmac::controller::Dmac;
use refusal::kinds::Refusal;
use registers::fault::Fault;
use std::test::Fail;

// A cycle of a channel under function code 0.
fn cycle(channel: u8, kind: Kind, address: u32, bytes: Data) -> Answer {
    Answer::Recorded(Record::Cycle {
        channel,
        kind,
        code: 0,
        address,
        data: bytes,
    })
}

fn error(channel: u8, fault: Fault) -> Answer {
    Answer::Recorded(Record::Error { channel, fault })
}

// A memory over these bytes, or an error of this program's own. A `map_err` gets no proof here, since the memory and the
// refused bytes are one borrow.
pub(crate) fn flat<'a>(bytes: &'a mut [u8]) -> Result<Flat<'a>, Fail> {
    match Flat::new(bytes) {
        Ok(memory) => Ok(memory),
        Err(_) => Err(Fail::new("memory")),
    }
}

// Sets up a channel: settings, count, memory and device address.
fn set_up(
    controller: &mut Dmac,
    base: u8,
    settings: (u8, u8, u8),
    count: u16,
    addresses: (u16, u16),
) -> Result<(), Refusal> {
    controller.write_byte(base | 0x04, settings.0)?;
    controller.write_byte(base | 0x05, settings.1)?;
    controller.write_byte(base | 0x06, settings.2)?;
    controller.write_word(base | 0x0A, count)?;
    controller.write_word(base | 0x0E, addresses.0)?;
    controller.write_word(base | 0x16, addresses.1)
}

#[test]
fn a_byte_comes_in_for_each_request(rt: HostRuntime) -> Result<(), Fail> {
    let mut bytes = [0u8; 32];
    let memory = flat(&mut bytes)?;
    let devices = Tape::new(0, b"ab");
    let mut around = Surroundings { memory, devices };
    let mut controller = Dmac::new();
    set_up(&mut controller, 0x00, (0x80, 0x82, 0x04), 3, (0x10, 0x40))?;
    controller.write_byte(0x07, 0x80)?;
    assert_eq!(rt; controller.step(&mut around, 7, false)?, Answer::Idle);
    controller.set_line(0, true)?;
    assert_eq!(rt;
        controller.step(&mut around, 7, false)?,
        cycle(0, Kind::Read, 0x40, Data::Byte(0x61))
    );
    assert_eq!(rt;
        controller.step(&mut around, 7, false)?,
        cycle(0, Kind::Write, 0x10, Data::Byte(0x61))
    );
    assert_eq!(rt; controller.step(&mut around, 7, false)?, Answer::Idle);
    controller.set_line(0, false)?;
    controller.set_line(0, true)?;
    assert_eq!(rt;
        controller.step(&mut around, 7, true)?,
        cycle(0, Kind::Read, 0x40, Data::Byte(0x62))
    );
    assert_eq!(rt;
        controller.step(&mut around, 7, false)?,
        cycle(0, Kind::Write, 0x11, Data::Byte(0x62))
    );
    assert_eq!(rt; controller.read_byte(0x00)?, 0xA0);
    assert_eq!(rt; controller.read_word(0x0A)?, 1);
    assert_eq!(rt;
        around.memory.read_word(Place {
            code: 5,
            address: 0x10
        }),
        Some((0x61, 0x62))
    );
    Ok(())
}

#[test]
fn a_long_operand_outlasts_every_exception(rt: HostRuntime) -> Result<(), Fail> {
    let mut bytes = [1u8, 2, 3, 4, 5, 6, 7, 8];
    let memory = flat(&mut bytes)?;
    let mut places = [0u8; 8];
    let devices = Printer::new(1, &mut places);
    let mut around = Surroundings { memory, devices };
    let mut controller = Dmac::new();
    set_up(&mut controller, 0x40, (0x10, 0x21, 0x05), 2, (0, 0x40))?;
    controller.write_byte(0x47, 0x80)?;
    assert_eq!(rt; controller.step(&mut around, 6, false)?, Answer::Halted);
    assert_eq!(rt;
        controller.step(&mut around, 7, false)?,
        cycle(1, Kind::Read, 0, Data::Word(0x01, 0x02))
    );
    assert_eq!(rt; controller.step(&mut around, 4, false)?, Answer::Retry);
    assert_eq!(rt;
        controller.step(&mut around, 6, false)?,
        cycle(1, Kind::Write, 0x40, Data::Byte(1))
    );
    assert_eq!(rt; controller.step(&mut around, 6, false)?, Answer::Halted);
    assert_eq!(rt; controller.step(&mut around, 3, false)?, Answer::Retry);
    assert_eq!(rt;
        controller.step(&mut around, 7, false)?,
        cycle(1, Kind::Write, 0x42, Data::Byte(2))
    );
    assert_eq!(rt;
        controller.step(&mut around, 7, false)?,
        cycle(1, Kind::Read, 2, Data::Word(0x03, 0x04))
    );
    assert_eq!(rt; controller.read_word(0x4A)?, 2);
    assert_eq!(rt;
        controller.step(&mut around, 7, false)?,
        cycle(1, Kind::Write, 0x44, Data::Byte(3))
    );
    assert_eq!(rt;
        controller.step(&mut around, 7, false)?,
        cycle(1, Kind::Write, 0x46, Data::Byte(4))
    );
    assert_eq!(rt; controller.read_word(0x4A)?, 1);
    assert_eq!(rt;
        controller.step(&mut around, 7, false)?,
        cycle(1, Kind::Read, 4, Data::Word(0x05, 0x06))
    );
    assert_eq!(rt;
        controller.step(&mut around, 5, false)?,
        error(1, Fault::DeviceBus)
    );
    assert_eq!(rt; Fault::DeviceBus.code(), 10);
    assert_eq!(rt; controller.read_word(0x4E)?, 4);
    assert_eq!(rt; controller.read_word(0x56)?, 0x48);
    Ok(())
}

#[test]
fn single_addressing_joins_memory_and_device(rt: HostRuntime) -> Result<(), Fail> {
    let mut bytes = [1u8, 2, 3, 4];
    let memory = flat(&mut bytes)?;
    let mut places = [0u8; 3];
    let devices = Pair::new(3, Printer::new(2, &mut places), Tape::new(3, b"xyz"));
    let mut around = Surroundings { memory, devices };
    let mut controller = Dmac::new();
    set_up(&mut controller, 0x80, (0x28, 0x11, 0x05), 2, (0, 0x40))?;
    controller.write_byte(0x87, 0x80)?;
    assert_eq!(rt;
        controller.step(&mut around, 7, false)?,
        cycle(2, Kind::Read, 0, Data::Word(0x01, 0x02))
    );
    assert_eq!(rt; controller.step(&mut around, 7, false)?, Answer::Waiting);
    set_up(&mut controller, 0xC0, (0x20, 0x81, 0x04), 4, (3, 0))?;
    controller.write_byte(0xC7, 0x80)?;
    assert_eq!(rt;
        controller.step(&mut around, 7, false)?,
        cycle(3, Kind::Write, 3, Data::Byte(0x78))
    );
    controller.write_byte(0x87, 0x10)?;
    assert_eq!(rt;
        controller.step(&mut around, 7, false)?,
        error(3, Fault::MemoryBus)
    );
    assert_eq!(rt; Fault::MemoryBus.code(), 9);
    assert_eq!(rt; controller.read_word(0xCA)?, 3);
    assert_eq!(rt;
        around.memory.read(Place {
            code: 0,
            address: 3
        }),
        Some(0x78)
    );
    Ok(())
}

#[test]
fn a_lower_priority_passes_while_the_other_waits_for_its_line(rt: HostRuntime) -> Result<(), Fail> {
    let mut bytes = [0u8; 32];
    let memory = flat(&mut bytes)?;
    let devices = Tape::new(0, b"abcd");
    let mut around = Surroundings { memory, devices };
    let mut controller = Dmac::new();
    set_up(&mut controller, 0x00, (0x00, 0x82, 0x04), 4, (0x10, 0x40))?;
    set_up(&mut controller, 0x40, (0x08, 0x01, 0x05), 2, (0, 4))?;
    controller.write_byte(0x6D, 3)?;
    controller.write_byte(0x07, 0x80)?;
    controller.write_byte(0x47, 0x80)?;
    controller.set_line(0, true)?;
    assert_eq!(rt;
        controller.step(&mut around, 7, false)?,
        cycle(0, Kind::Read, 0x40, Data::Byte(0x61))
    );
    assert_eq!(rt;
        controller.step(&mut around, 7, false)?,
        cycle(0, Kind::Write, 0x10, Data::Byte(0x61))
    );
    assert_eq!(rt;
        controller.step(&mut around, 7, false)?,
        cycle(0, Kind::Read, 0x40, Data::Byte(0x62))
    );
    controller.set_line(0, false)?;
    assert_eq!(rt;
        controller.step(&mut around, 7, false)?,
        cycle(0, Kind::Write, 0x11, Data::Byte(0x62))
    );
    assert_eq!(rt;
        controller.step(&mut around, 7, false)?,
        cycle(1, Kind::Read, 0, Data::Byte(0))
    );
    controller.set_line(0, true)?;
    assert_eq!(rt;
        controller.step(&mut around, 7, false)?,
        cycle(1, Kind::Write, 4, Data::Byte(0))
    );
    assert_eq!(rt;
        controller.step(&mut around, 7, false)?,
        cycle(0, Kind::Read, 0x40, Data::Byte(0x63))
    );
    Ok(())
}
