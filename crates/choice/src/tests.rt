use crate::choose;

// Channels of equal priority take turns, and one that is alone is served again. (Here and below each loop is over the
// channel that was served last, which is the input.)
#[test]
fn equals_take_turns(rt: HostRuntime) {
    for last in 0..4u8 {
        assert_eq!(rt; choose([true; 4], [2; 4], last), Some((last + 1) % 4));
    }
    assert_eq!(rt; choose([true, false, true, false], [3; 4], 0), Some(2));
    assert_eq!(rt; choose([true, false, true, false], [3; 4], 2), Some(0));
    assert_eq!(rt; choose([false, false, true, false], [3; 4], 2), Some(2));
}

// The lowest number wins wherever the round begins, if its channel counts.
#[test]
fn lowest_number_wins(rt: HostRuntime) {
    for last in 0..4u8 {
        assert_eq!(rt; choose([true; 4], [3, 1, 0, 2], last), Some(2));
        assert_eq!(rt;
            choose([true, true, false, true], [3, 1, 0, 2], last),
            Some(1)
        );
    }
}

#[test]
fn none_counts(rt: HostRuntime) {
    for last in 0..4u8 {
        assert_eq!(rt; choose([false; 4], [0, 1, 2, 3], last), None);
    }
}
