use crate::{Queue, move_oldest};

// A plain element that is not a byte.
#[derive(Clone, Copy, PartialEq, Eq, Debug)]
struct Entry {
    channel: u8,
    address: u32,
}

const A: Entry = Entry {
    channel: 0,
    address: 0x100,
};

const B: Entry = Entry {
    channel: 1,
    address: 0x200,
};

// Pushes the items in turn, and says how many were taken.
fn push_all<T: Copy>(queue: &mut Queue<'_, T>, items: &[T]) -> usize {
    let refused = items.iter().position(|item| !queue.push(*item));
    refused.unwrap_or(items.len())
}

// Over three slots: three of the first four items are taken, two go, and two of the others wrap round.
fn wraps<T: Copy>(queue: &mut Queue<'_, T>, first: &[T], others: &[T], to: &mut [T]) -> bool {
    push_all(queue, first) == 3 && move_oldest(queue, to, 2) == 2 && push_all(queue, others) == 2
}

// What the first four places hold.
fn shown<T: Copy>(queue: &Queue<'_, T>) -> [Option<T>; 4] {
    [queue.get(0), queue.get(1), queue.get(2), queue.get(3)]
}

#[test]
fn bytes_wrap_round(rt: HostRuntime) {
    let mut slots = [0u8; 3];
    let mut queue = Queue::new(&mut slots);
    let mut to = [0u8; 2];
    assert!(rt; wraps(&mut queue, &[10, 11, 12, 13], &[14, 15, 16], &mut to));
    assert_eq!(rt; to, [10, 11]);
    assert_eq!(rt; shown(&queue), [Some(12), Some(14), Some(15), None]);
    let (first, rest) = queue.as_slices();
    assert_eq!(rt; first, [12].as_slice());
    assert_eq!(rt; rest, [14, 15].as_slice());
    assert!(rt; queue.iter().eq(&[12, 14, 15]));
}

#[test]
fn entries_wrap_round(rt: HostRuntime) {
    let mut slots = [A; 3];
    let mut queue = Queue::new(&mut slots);
    let mut to = [A; 2];
    assert!(rt; wraps(&mut queue, &[A, B, B, A], &[A, B, A], &mut to));
    assert_eq!(rt; to, [A, B]);
    assert_eq!(rt; shown(&queue), [Some(B), Some(A), Some(B), None]);
}

#[test]
fn more_than_exists(rt: HostRuntime) {
    let mut slots = [0u8; 4];
    let mut queue = Queue::new(&mut slots);
    push_all(&mut queue, &[1, 2]);
    let mut to = [7u8; 4];
    assert_eq!(rt; move_oldest(&mut queue, &mut to, 100), 2);
    assert_eq!(rt; to, [1, 2, 7, 7]);
    assert!(rt; queue.is_empty());
}

#[test]
fn more_than_fits(rt: HostRuntime) {
    let mut slots = [0u8; 4];
    let mut queue = Queue::new(&mut slots);
    push_all(&mut queue, &[1, 2, 3]);
    let mut to = [7u8; 2];
    assert_eq!(rt; move_oldest(&mut queue, &mut to, 3), 2);
    assert_eq!(rt; to, [1, 2]);
    assert_eq!(rt; shown(&queue), [Some(3), None, None, None]);
}

#[test]
fn full_and_empty(rt: HostRuntime) {
    let mut slots = [0u8; 2];
    let mut queue = Queue::new(&mut slots);
    push_all(&mut queue, &[1, 2]);
    assert!(rt; queue.is_full() && !queue.is_empty() && queue.len() == 2);
    assert_eq!(rt; queue.room(), 0);
    queue.clear();
    assert!(rt; queue.is_empty() && !queue.is_full() && queue.capacity() == 2);
    assert_eq!(rt; queue.room(), 2);
}

#[test]
fn no_slots(rt: HostRuntime) {
    let mut slots: [u8; 0] = [];
    let mut queue = Queue::new(&mut slots);
    let mut to = [7u8; 2];
    assert!(rt; queue.is_full() && queue.is_empty() && !queue.push(1));
    assert_eq!(rt; move_oldest(&mut queue, &mut to, 2), 0);
    assert_eq!(rt; to, [7, 7]);
}
