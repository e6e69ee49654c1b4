// The queue and what it can do.
ghost use Rattle.std.specs.Prelude.{◌≡◌, ◌+◌, ◌-◌, ◌<◌, ◌≤◌, min, false, not, [], ◌∷◌, ◌++◌, length, take, drop, if◌then◌else◌, ◌==◌, nat_lt};

use crate::iter::Iter;
pub use crate::moves::move_oldest;

// The oldest element is in the slot `head`, and the `len` elements follow one another from there on; after
// the last slot comes the first. No more are held than there are slots.
// Lent slots and no list that grows: the controller has no heap.
// Each call says that the room stays, since a fact about one moment can't say it.
#[derive(Drop)]
pub struct Queue<'a, T: Copy> {
    slots: &'a mut [T],
    head: usize,
    len: usize,
    ghost begins: { head ≤ length slots.now },
    ghost fits: { len ≤ length slots.now },
}

impl<'a, T: Copy> Queue<'a, T> {
    ghost use Rattle.queue.specs.Queue.{held, capacity_of, item_at, slot_of, left};

    // A queue that holds nothing.
    pub fn new(slots: &'a mut [T]) -> Queue<'a, T>
        ensures items { held result ≡ [] }
        ensures room { capacity_of result ≡ length slots.old }
    {
        Queue {
            slots,
            head: 0,
            len: 0,
        }
    }

    // How many elements it holds.
    pub fn len(&self) -> usize
        ensures count { result ≡ length (held self.now) }
        ensures within { result ≤ capacity_of self.now }
    {
        self.len // never above the number of slots
    }

    // How many elements it can hold.
    pub fn capacity(&self) -> usize
        ensures { result ≡ capacity_of self.now }
    {
        self.slots.len()
    }

    // How many more elements it can take.
    pub fn room(&self) -> usize
        ensures { result ≡ capacity_of self.now - length (held self.now) }
    {
        self.capacity() - self.len()
    }

    // Whether it has no room for one more.
    pub fn is_full(&self) -> bool
        ensures { result ≡ not (nat_lt (length (held self.now)) (capacity_of self.now)) }
    {
        self.len() >= self.capacity()
    }

    // Whether it holds nothing.
    pub fn is_empty(&self) -> bool
        ensures { result ≡ (length (held self.now) == 0) }
    {
        self.len() == 0
    }

    // The slot that is `offset` places after the oldest element's.
    fn slot(&self, offset: usize) -> usize
        requires { offset ≤ capacity_of self.now }
        ensures place { result ≡ slot_of self.now.head offset (capacity_of self.now) }
        ensures inside { offset < capacity_of self.now → result < capacity_of self.now }
        ensures within { result ≤ capacity_of self.now }
    {
        let to_end = self.capacity() - self.head;
        if offset < to_end {
            self.head + offset
        } else {
            offset - to_end
        }
    }

    // The elements in their order, in two parts: those up to the last slot, and those that follow from the first slot on.
    pub fn as_slices(&self) -> (&[T], &[T])
        ensures { result.0.now ++ result.1.now ≡ held self.now }
    {
        let (before, after) = self.slots.split_at(self.head);
        let first = &after[..self.len.min(after.len())];
        (first, &before[..self.len - first.len()])
    }

    // The elements, the oldest first.
    pub fn iter(&self) -> Iter<'_, T>
        ensures { left result ≡ held self.now }
    {
        let (first, rest) = self.as_slices();
        Iter::new(first, rest)
    }

    // The element at a place, of which the oldest is at 0; `None` past the newest.
    pub fn get(&self, index: usize) -> Option<T>
        ensures { result ≡ item_at (held self.now) index }
    {
        // By an index, as in `push`: it is one slot that is meant.
        if index < self.len() {
            Some(self.slots[self.slot(index)])
        } else {
            None
        }
    }

    // Adds an element as the newest; false, with nothing changed, where the queue is full.
    // A bool and no Result: there is one cause, and the caller still has the element, which is `Copy`.
    pub fn push(&mut self, x: T) -> bool
        ensures answer { result ≡ nat_lt (length (held self.old)) (capacity_of self.old) }
        ensures items { held self.new ≡ (if result then held self.old ++ (x ∷ []) else held self.old) }
        ensures room { capacity_of self.new ≡ capacity_of self.old }
    {
        if self.is_full() {
            return false;
        }
        let place = self.slot(self.len());
        self.slots[place] = x;
        self.len += 1;
        true
    }

    // Lets the oldest `n` elements go.
    pub(crate) fn skip(&mut self, n: usize)
        requires { n ≤ length (held self.old) }
        ensures items { held self.new ≡ drop n (held self.old) }
        ensures room { capacity_of self.new ≡ capacity_of self.old }
    {
        self.head = self.slot(n);
        self.len -= n;
    }

    // Lets all elements go.
    pub fn clear(&mut self)
        ensures items { held self.new ≡ [] }
        ensures room { capacity_of self.new ≡ capacity_of self.old }
    {
        self.len = 0;
    }
}
