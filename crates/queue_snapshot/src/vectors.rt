// A snapshot as a list of its own.
ghost use Rattle.concurrent_queue.specs.Queues.{IsOf};
ghost use Rattle.queue_snapshot.specs.Snapshots.{Snaps};

use crate::items::read_all;
use crate::opening::open;
use concurrent_queue::{ConcurrentQueue, Items, NoMemory, QueuePass, Receipt};
use std::alloc::Global;
use std::sync::Wait;

/// All items that the queue has at one step, in their order (`ToArray`). The receipt is `Looked`, with the
/// counts of takes and of enqueues before that step.
///
/// It makes one entry of the caller, and leaves no window open. It first takes memory for as many items as
/// the queue has room for: want of it makes no entry, and leaves the pass as it was. Linear in the items, and
/// in the places of the queue. It waits for other callers that open a segment, count, or have enqueued an
/// item that it shows and not put it into its slot yet. A caller that has made as many calls as it may waits
/// for good.
pub fn to_vec<R: Wait>(
    rt: &R,
    alloc: Global,
    queue: &ConcurrentQueue,
    pass: &mut QueuePass,
) -> Result<(Items, Receipt), NoMemory>
    requires { IsOf queue.now pass.old }
    ensures { Snaps queue.now.first_len pass.old pass.new result }
{
    let mut numbers = Vec::with_capacity(alloc, queue.room() as usize)?;
    let (mut window, receipt) = open(rt, queue, pass);
    read_all(rt, queue, pass, &mut window, &mut numbers);
    queue.window_end(pass, window);
    Ok((Items::from_vec(numbers), receipt))
}
