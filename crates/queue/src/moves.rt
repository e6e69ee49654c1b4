// Elements moved out of a queue.
ghost use Rattle.std.specs.Prelude.{◌≡◌, min, ◌++◌, length, take, drop};
ghost use Rattle.queue.specs.Queue.{held, capacity_of};

use crate::ring::Queue;

// Moves the oldest `n` elements to the beginning of `to`, in their order: fewer where the queue holds fewer
// or `to` has less room. The answer says how many.
pub fn move_oldest<T: Copy>(queue: &mut Queue<'_, T>, to: &mut [T], n: usize) -> usize
    ensures count { result ≡ min n (min (length (held queue.old)) (length to.old)) }
    ensures given { to.new ≡ take result (held queue.old) ++ drop result to.old }
    ensures left { held queue.new ≡ drop result (held queue.old) }
    ensures room { capacity_of queue.new ≡ capacity_of queue.old }
{
    let count = n.min(queue.len().min(to.len()));
    let (first, rest) = queue.as_slices();
    let seam = count.min(first.len());
    to[..seam].copy_from_slice(&first[..seam]);
    to[seam..count].copy_from_slice(&rest[..count - seam]);
    queue.skip(count);
    count
}
