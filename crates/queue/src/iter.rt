// The elements of a queue, one after the other.
ghost use Rattle.std.specs.Prelude.{◌≡◌, ◌++◌};
ghost use Rattle.std.specs.Iterator.{YieldsFirstRef, item_count};
ghost use Rattle.queue.specs.Queue.{left};

// The elements of a queue, the oldest first: those of `first` that are left, and then those of `rest`.
// No `Chain` of the parts: callers' proofs see one list, of what is left.
#[derive(Drop)]
pub struct Iter<'a, T> {
    first: &'a [T],
    rest: &'a [T],
}

impl<'a, T> Iter<'a, T> {
    pub(crate) fn new(first: &'a [T], rest: &'a [T]) -> Iter<'a, T>
        ensures { left result ≡ first.now ++ rest.now }
    {
        Iter { first, rest }
    }
}

impl<'a, T> Iterator for Iter<'a, T> {
    type Item = &'a T;

    ghost next_gives = { YieldsFirstRef left };

    ghost remaining = { item_count left };

    fn next(&mut self) -> Option<&'a T> {
        if self.first.is_empty() {
            self.first = self.rest;
            self.rest = &[];
        }
        let (item, others) = self.first.split_first()?;
        self.first = others;
        Some(item)
    }
}
