// Calls that repeat their try until it makes an entry. Between two tries they pause. A caller that has made
// as many calls as it may waits for good: each of its tries says so, and makes no step.
ghost use Rattle.std.specs.Prelude.{[], ◌∷◌};
ghost use Rattle.ho_model.specs.Entries.{entry};
ghost use Rattle.ho_model.specs.declared.marks.CallMark.TheVariants as callmark;
ghost use Rattle.ho_model.specs.declared.marks.ReplyMark.TheVariants.{Counted};
ghost use Rattle.queue_tries.specs.Tries.{IsIdle, enqueue_mark, dequeue_mark};
ghost use Rattle.queue_tries.specs.Lasting.{Ends};

use crate::answers::{DequeueReply, EnqueueReply, QueueOnce};
use crate::counts::count_once;
use crate::dequeues::dequeue_once;
use crate::enqueues::enqueue_once;
use crate::peeks::peek_once;
use ho_base::Receipt;
use pauses::Pause;
use seg_rule::{QueuePass, QueueTable};
use std::sync::Wait;

/// Puts an item last, if there is room. The receipt is `Enqueued`; of a full queue `Looked`.
pub fn enqueue<R: Wait>(
    rt: &R,
    table: &QueueTable,
    pass: &mut QueuePass,
    value: u64,
) -> (EnqueueReply, Receipt)
    requires idle { IsIdle table.now pass.old }
    ensures idle { IsIdle table.now pass.new }
    ensures ends { Ends pass.old pass.new
        (entry pass.old.view.caller (callmark.Enq (value ∷ [])) (enqueue_mark result.0)) result.1 }
{
    let mut pause = Pause::new();
    for _ in rt.forever() {
        match enqueue_once(table, pass, value) {
            QueueOnce::Answer(reply, receipt) => return (reply, receipt),
            QueueOnce::Again(_) => {}
            QueueOnce::Spent => {}
        }
        pause.take(rt);
    }
    unreachable!()
}

/// Takes the first item, if there is one. The receipt is `Dequeued`; of an empty queue `Looked`.
pub fn dequeue<R: Wait>(rt: &R, table: &QueueTable, pass: &mut QueuePass) -> (DequeueReply, Receipt)
    requires idle { IsIdle table.now pass.old }
    ensures idle { IsIdle table.now pass.new }
    ensures ends { Ends pass.old pass.new
        (entry pass.old.view.caller callmark.Deq (dequeue_mark result.0)) result.1 }
{
    let mut pause = Pause::new();
    for _ in rt.forever() {
        match dequeue_once(table, pass) {
            QueueOnce::Answer(reply, receipt) => return (reply, receipt),
            QueueOnce::Again(_) => {}
            QueueOnce::Spent => {}
        }
        pause.take(rt);
    }
    unreachable!()
}

/// Shows the first item, if there is one. The receipt is `Peeked`; of an empty queue `Looked`.
pub fn peek<R: Wait>(rt: &R, table: &QueueTable, pass: &mut QueuePass) -> (DequeueReply, Receipt)
    requires idle { IsIdle table.now pass.old }
    ensures idle { IsIdle table.now pass.new }
    ensures ends { Ends pass.old pass.new
        (entry pass.old.view.caller callmark.Peek (dequeue_mark result.0)) result.1 }
{
    let mut pause = Pause::new();
    for _ in rt.forever() {
        match peek_once(table, pass) {
            QueueOnce::Answer(reply, receipt) => return (reply, receipt),
            QueueOnce::Again(_) => {}
            QueueOnce::Spent => {}
        }
        pause.take(rt);
    }
    unreachable!()
}

/// Counts the items. The receipt is `Looked`.
pub fn count<R: Wait>(rt: &R, table: &QueueTable, pass: &mut QueuePass) -> (u64, Receipt)
    requires idle { IsIdle table.now pass.old }
    ensures idle { IsIdle table.now pass.new }
    ensures ends { Ends pass.old pass.new
        (entry pass.old.view.caller callmark.Count (Counted result.0)) result.1 }
{
    let mut pause = Pause::new();
    for _ in rt.forever() {
        match count_once(table, pass) {
            QueueOnce::Answer(count, receipt) => return (count, receipt),
            QueueOnce::Again(_) => {}
            QueueOnce::Spent => {}
        }
        pause.take(rt);
    }
    unreachable!()
}
