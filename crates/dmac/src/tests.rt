use crate::controller::Dmac;
use refusal::kinds::Refusal;
use std::test::Fail;

#[test]
fn a_word_is_two_bytes_high_first(rt: HostRuntime) -> Result<(), Fail> {
    let mut controller = Dmac::new();
    controller.write_word(0x0A, 0x1234)?;
    controller.write_word(0x4E, 0x5678)?;
    assert_eq!(rt; controller.read_byte(0x0A), Ok(0x12));
    assert_eq!(rt; controller.read_byte(0x0B), Ok(0x34));
    assert_eq!(rt; controller.read_word(0x4E), Ok(0x5678));
    assert_eq!(rt; controller.read_word(0x0E), Ok(0));
    controller.write_word(0xA4, 0x5599)?;
    assert_eq!(rt; controller.read_word(0xA4), Ok(0x0099));
    controller.write_word(0xFE, 0xFFFA)?;
    assert_eq!(rt; controller.read_word(0xFE), Ok(0x000A));
    Ok(())
}

#[test]
fn a_word_is_refused_by_the_smallest_number(rt: HostRuntime) {
    let mut controller = Dmac::new();
    assert_eq!(rt; controller.read_word(0x02), Err(Refusal::NoRegister));
    assert_eq!(rt; controller.read_word(0x03), Err(Refusal::OddWord));
    assert_eq!(rt; controller.read_word(0x11), Err(Refusal::NoRegister));
    assert_eq!(rt; controller.read_word(0x3F), Err(Refusal::OddWord));
    assert_eq!(rt; controller.read_word(0xFF), Err(Refusal::OddWord));
    assert_eq!(rt; controller.write_word(0x07, 0x8000), Err(Refusal::OddWord));
    assert_eq!(rt;
        controller.write_word(0xC6, 0x0580),
        Err(Refusal::StartByWord)
    );
    assert_eq!(rt; controller.read_word(0xC6), Ok(0));
}

#[test]
fn one_barred_half_bars_both(rt: HostRuntime) -> Result<(), Fail> {
    let mut controller = Dmac::new();
    controller.write_word(0x0A, 1)?;
    controller.write_word(0x04, 0x0801)?;
    controller.write_byte(0x07, 0x80)?;
    assert_eq!(rt; controller.read_byte(0x00), Ok(0x08));
    controller.write_word(0x06, 0x0528)?;
    assert_eq!(rt; controller.read_word(0x06), Ok(0));
    assert_eq!(rt; controller.read_word(0x00), Ok(0x9002));
    Ok(())
}
