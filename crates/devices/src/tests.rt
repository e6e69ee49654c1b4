use crate::bank::DeviceBank;
use crate::none::NoDevices;
use crate::pair::Pair;
use crate::printer::Printer;
use crate::tape::Tape;

#[test]
fn a_tape_gives_what_it_has(rt: HostRuntime) {
    let mut empty = Tape::new(1, b"");
    assert!(rt; !empty.can_give(1, 1));
    assert_eq!(rt; empty.give(1), None);
    let mut tape = Tape::new(1, b"abc");
    assert!(rt; tape.can_give(1, 3) && !tape.can_give(1, 4) && !tape.can_give(2, 1));
    assert_eq!(rt; tape.give_word(1), Some((b'a', b'b')));
    assert_eq!(rt; tape.give_word(1), None);
    assert_eq!(rt; tape.give(0), None);
    assert_eq!(rt; tape.give(1), Some(b'c'));
    assert_eq!(rt; tape.give(1), None);
}

#[test]
fn a_printer_is_filled_exactly(rt: HostRuntime) {
    let mut places = [0u8; 3];
    let mut printer = Printer::new(2, &mut places);
    printer.take(2, 1);
    printer.take(3, 9);
    printer.take_word(2, 2, 3);
    assert!(rt; !printer.can_take(2, 1) && printer.can_take(2, 0));
    printer.take(2, 4);
    let mut kept = [0u8; 4];
    assert_eq!(rt; printer.move_kept(&mut kept, 9), 3);
    assert_eq!(rt; kept, [1, 2, 3, 0]);
    assert!(rt; printer.can_take(2, 3) && !printer.can_take(1, 1));
}

#[test]
fn a_pair_divides_the_channels(rt: HostRuntime) {
    let mut none = Pair::new(0, Tape::new(0, b"a"), Tape::new(0, b"b"));
    assert_eq!(rt; none.give(0), Some(b'b'));
    let mut two = Pair::new(2, Tape::new(1, b"a"), Tape::new(2, b"b"));
    assert_eq!(rt; two.give(1), Some(b'a'));
    assert_eq!(rt; two.give(2), Some(b'b'));
    assert_eq!(rt; two.give(3), None);
    let mut all = Pair::new(4, Tape::new(3, b"a"), NoDevices);
    assert_eq!(rt; all.give(3), Some(b'a'));
    assert_eq!(rt; all.give(4), None);
    let mut above = Pair::new(9, NoDevices, Tape::new(3, b"a"));
    assert_eq!(rt; above.give(3), None);
}

// What is done with a bank that is lent is done with the bank.
#[test]
fn a_lent_bank_is_the_bank(rt: HostRuntime) {
    let mut places = [0u8; 2];
    let mut printer = Printer::new(2, &mut places);
    let mut lent = &mut printer;
    lent.take_word(2, 7, 8);
    assert!(rt; !lent.can_take(2, 1) && !lent.can_give(2, 1));
    assert_eq!(rt; lent.give(2), None);
    let mut kept = [0u8; 2];
    assert_eq!(rt; printer.move_kept(&mut kept, 2), 2);
    assert_eq!(rt; kept, [7, 8]);
}
