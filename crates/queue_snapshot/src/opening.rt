// A window is opened by tries that repeat until one of them makes its entry.
ghost use Rattle.std.specs.Prelude.{◌≤◌, length};
ghost use Rattle.queue_tries.specs.Windows.{items_of};
ghost use Rattle.concurrent_queue.specs.Queues.{IsOf, IsInside};
ghost use Rattle.concurrent_queue.specs.Windows.{HasOpened};
ghost use Rattle.queue_snapshot.specs.Snapshots.{Opens};

use concurrent_queue::{ConcurrentQueue, QueueOnce, QueuePass, Receipt, Window};
use pauses::Pause;
use std::sync::Wait;

/// Opens a window on all items, of which it has given none. A caller that has made as many calls as it may
/// waits for good.
pub(crate) fn open<R: Wait>(
    rt: &R,
    queue: &ConcurrentQueue,
    pass: &mut QueuePass,
) -> (Window, Receipt)
    requires { IsOf queue.now pass.old }
    ensures of { IsInside queue.now pass.new }
    ensures opened { HasOpened pass.new result.0 }
    ensures opens { Opens queue.now.first_len pass.old pass.new result.0 result.1 }
    ensures within { length (items_of pass.new.pass.seen result.0) ≤ queue.now.room }
{
    let mut pause = Pause::new();
    for _ in rt.forever() {
        match queue.window_once(pass) {
            QueueOnce::Answer(window, receipt) => return (window, receipt),
            QueueOnce::Again(_) => {}
            QueueOnce::Spent => {}
        }
        pause.take(rt);
    }
    unreachable!()
}
