use crate::command::Command;
use crate::lines::{Lines, after_line, first_line};
use crate::parse::parse;
use crate::text::{
    DataBytes, Hex, byte_at, data_count, hex_pair, put, put_byte, put_newline, put_ok, put_pair,
    put_refusal,
};
use refusal::kinds::Refusal;
use std::test::Fail;

#[test]
fn good_lines(rt: HostRuntime) {
    let lines = [
        (
            "W 05 2A",
            Command::Write {
                offset: 0x05,
                value: 0x2A,
            },
        ),
        ("R F0", Command::Read { offset: 0xF0 }),
        (
            "F 00010A 7F",
            Command::Fill {
                address: 0x00010A,
                digits: b"7F",
            },
        ),
        (
            "F 123456 0F0102030405060708090A0B0C0D0E00",
            Command::Fill {
                address: 0x123456,
                digits: b"0F0102030405060708090A0B0C0D0E00",
            },
        ),
        (
            "M FFFFFE 00",
            Command::Show {
                address: 0xFFFFFE,
                count: 0,
            },
        ),
        ("S FF", Command::Run { steps: 0xFF }),
    ];
    for (line, said) in lines {
        assert_eq!(rt; parse(line.as_bytes()), Ok(said), "{}", line);
    }
}

#[test]
fn bad_lines(rt: HostRuntime) {
    let lines = [
        "",
        " ",
        "W",
        "w 05 2A",
        "W 05 2a",
        "W 05  2A",
        "W 05 2A ",
        " W 05 2A",
        "W 05 2A\r",
        "W 05 2",
        "W,05,2A",
        "R 5",
        "R 005",
        "F 000100 ",
        "F 000100 4",
        "F 000100 4A6",
        "F 000100 4A 6F",
        "F 000100 4G",
        "F 000100 000102030405060708090A0B0C0D0E0F10",
        "M 000100",
        "M 0100 04",
        "M 000100 4",
        "X 00",
    ];
    for line in lines {
        assert_eq!(rt; parse(line.as_bytes()), Err(Refusal::NoCommand), "{}", line);
    }
}

#[test]
fn data_of_a_fill(rt: HostRuntime) {
    assert_eq!(rt; data_count(b"007F0"), 2);
    assert_eq!(rt; byte_at(b"007F0", 1), 0x7F);
    assert_eq!(rt; byte_at(b"007F0", 2), 0);
    assert_eq!(rt; DataBytes::of(b"007F0").nth(1), Some(0x7F));
    assert_eq!(rt; DataBytes::of(b"007F0").nth(2), None);
}

#[test]
fn lines_of_a_script(rt: HostRuntime) {
    let script = b"R 00\nR 01";
    assert!(rt; first_line(script) == b"R 00".as_slice());
    assert!(rt; after_line(script, 4) == b"R 01".as_slice());
    assert!(rt; after_line(script, 9).is_empty());
    assert!(rt; first_line(b"\nR 01").is_empty());
    assert!(rt; Lines::of(script).nth(0) == Some(b"R 00".as_slice()));
    assert!(rt; Lines::of(script).nth(1) == Some(b"R 01".as_slice()));
    assert!(rt; Lines::of(script).nth(2).is_none());
}

#[test]
fn answers(rt: HostRuntime) -> Result<(), Fail> {
    let mut out = Vec::new(rt.alloc());
    put_ok(&mut out)?;
    put_byte(&mut out, 0x2A)?;
    put_refusal(&mut out, Refusal::NoCommand)?;
    put_refusal(&mut out, Refusal::TraceFull)?;
    assert!(rt; out.as_slice() == b"OK\n2A\nE 06\nE 10\n".as_slice());
    Ok(())
}

#[test]
fn printed_digits(rt: HostRuntime) -> Result<(), Fail> {
    assert_eq!(rt; hex_pair(0x2A), [b'2', b'A']);
    let mut out = Vec::new(rt.alloc());
    put(&mut out, Hex(0x0A))?;
    put_pair(&mut out, 0xF7)?;
    put_newline(&mut out)?;
    assert!(rt; out.as_slice() == b"0AF7\n".as_slice());
    Ok(())
}
