// The items of a window, in order. What is not published yet is waited for.
ghost use Rattle.std.specs.Prelude.{◌≡◌, ◌≤◌, [], length};
ghost use Rattle.std.specs.Vec.{vec_capacity};
ghost use Rattle.queue_tries.specs.Windows.{items_of, given_of};
ghost use Rattle.concurrent_queue.specs.Queues.{IsInside};
ghost use Rattle.concurrent_queue.specs.Windows.{HasOpened};
ghost use Rattle.queue_snapshot.specs.Snapshots.{GivesNext, HasGiven};

use concurrent_queue::{ConcurrentQueue, Next, QueuePass, Window};
use pauses::Pause;
use std::sync::Wait;

/// The next item of a window that this pass has opened, or None where all are given.
pub(crate) fn next_item<R: Wait>(
    rt: &R,
    queue: &ConcurrentQueue,
    pass: &mut QueuePass,
    window: &mut Window,
) -> Option<u64>
    requires of { IsInside queue.now pass.old }
    requires opened { HasOpened pass.old window.old }
    ensures of { IsInside queue.now pass.new }
    ensures opened { HasOpened pass.new window.new }
    ensures gives { GivesNext pass.old window.old pass.new window.new result }
{
    let mut pause = Pause::new();
    for _ in rt.forever() {
        match queue.window_next(pass, window) {
            Next::Item(item) => return Some(item),
            Next::End => return None,
            Next::InFlight => {}
        }
        pause.take(rt);
    }
    unreachable!()
}

/// Reads all items of a window that has given none, into a list with room for them.
pub(crate) fn read_all<R: Wait>(
    rt: &R,
    queue: &ConcurrentQueue,
    pass: &mut QueuePass,
    window: &mut Window,
    numbers: &mut Vec<u64>,
)
    requires of { IsInside queue.now pass.old }
    requires opened { HasOpened pass.old window.old }
    requires unread { (given_of window.old ≡ 0) × (numbers.old.items ≡ []) }
    requires room { length (items_of pass.old.pass.seen window.old) ≤ vec_capacity numbers.old }
    ensures of { IsInside queue.now pass.new }
    ensures opened { HasOpened pass.new window.new }
    ensures given { HasGiven pass.old window.old pass.new window.new numbers.new.items }
    ensures all { numbers.new.items ≡ items_of pass.old.pass.seen window.old }
{
    for _ in rt.forever() {
        match next_item(rt, queue, pass, window) {
            Some(item) => numbers.push_reserved(item),
            None => return,
        }
    }
    unreachable!()
}
