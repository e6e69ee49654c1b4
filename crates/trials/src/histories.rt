use crate::lent::{perform_lent, play_lent, run_lent, serve_lent, step_lent};
use crate::tests::flat;
use audit::call::{Call, Reply};
use audit::log::{Entry, play};
use bus::memory::{Memory, Place};
use channel::state::Channel;
use cycle::record::{Data, Kind, Record};
use cycle::surroundings::Surroundings;
use devices::tape::Tape;
use dmac::answer::Answer;
use dmac::run::{Ending, Ran};
use queue::Queue;
use refusal::kinds::Refusal;
use std::test::Fail;

// The calls of a history: channel 0 brings two bytes in from a tape to $10, and a third one is not there. Beside each call
// stand the room of the trace before it and what it replies.
const HISTORY: [(Call, usize, Result<Reply, Refusal>); 8] = [
    (Call::WriteWord(0x04, 0x1080), 6, Ok(Reply::Done)),
    (Call::WriteByte(0x06, 0x04), 6, Ok(Reply::Done)),
    (Call::WriteWord(0x0A, 3), 6, Ok(Reply::Done)),
    (Call::WriteWord(0x0E, 0x0010), 6, Ok(Reply::Done)),
    (Call::WriteByte(0x07, 0x80), 6, Ok(Reply::Done)),
    (
        Call::Run(9),
        6,
        Ok(Reply::Ended(Ran {
            ending: Ending::Waiting,
            records: 4,
        })),
    ),
    (Call::ReadWord(0x0A), 2, Ok(Reply::Word(1))),
    (Call::WriteByte(0x02, 0), 2, Err(Refusal::NoRegister)),
];

#[test]
fn a_log_is_filled_in(rt: HostRuntime) -> Result<(), Fail> {
    let mut bytes = [0u8; 32];
    let mut memory = flat(&mut bytes)?;
    let mut devices = Tape::new(0, b"ab");
    let mut around = Surroundings {
        memory: &mut memory,
        devices: &mut devices,
    };
    let mut slots = [Record::BLANK; 6];
    let mut trace = Queue::new(&mut slots);
    let mut log = [Entry {
        call: Call::Run(0),
        room: 0,
        reply: Ok(Reply::Done),
    }; 8];
    for (entry, (call, _, _)) in log.iter_mut().zip(HISTORY.iter()) {
        entry.call = *call;
    }
    let controller = play(&mut log, &mut around, &mut trace);
    assert_eq!(rt; controller.read_word(0x0E)?, 0x0012);
    assert_eq!(rt;
        memory.read(Place {
            code: 5,
            address: 0x11
        }),
        Some(b'b')
    );
    for (entry, (_, room, reply)) in log.iter().zip(HISTORY.iter()) {
        assert_eq!(rt; entry.room, *room);
        assert_eq!(rt; entry.reply, *reply);
    }
    assert_eq!(rt; Refusal::NoRegister.number(), 1);
    Ok(())
}

// Each call is made once on a memory and a tape that the caller keeps: the tape's first byte comes in to $10.
#[test]
fn a_caller_keeps_what_it_lends(rt: HostRuntime) -> Result<(), Fail> {
    let mut bytes = [7u8; 32];
    let mut memory = flat(&mut bytes)?;
    let mut devices = Tape::new(0, b"ab");
    let mut slots = [Record::BLANK; 6];
    let mut trace = Queue::new(&mut slots);
    let mut log = [Entry {
        call: Call::Run(0),
        room: 0,
        reply: Ok(Reply::Done),
    }; 5];
    for (entry, (call, _, _)) in log.iter_mut().zip(HISTORY.iter()) {
        entry.call = *call;
    }
    let mut controller = play_lent(&mut log, &mut memory, &mut devices, &mut trace);
    let ran = run_lent(&mut controller, &mut memory, &mut devices, &mut trace, 1)?;
    assert_eq!(rt; ran.ending, Ending::Done);
    assert_eq!(rt; devices.rest.len(), 1);
    let answer = step_lent(&mut controller, &mut memory, &mut devices, 7, false)?;
    assert!(rt; matches!(answer, Answer::Recorded(_)));
    let place = Place {
        code: 5,
        address: 0x10,
    };
    assert_eq!(rt; memory.read(place), Some(b'a'));
    let call = Call::ReadWord(0x0A);
    assert_eq!(rt;
        perform_lent(&mut controller, &mut memory, &mut devices, &mut trace, call),
        Ok(Reply::Word(2))
    );
    let mut channel = Channel::new();
    assert_eq!(rt;
        serve_lent(&mut channel, 1, &mut memory, &mut devices, false),
        Ok(Record::Cycle {
            channel: 1,
            kind: Kind::Read,
            code: 0,
            address: 0,
            data: Data::Byte(7)
        })
    );
    Ok(())
}
