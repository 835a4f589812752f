// The worked rows of a queue, as calls of `step`.
ghost use Rattle.std.specs.Prelude.{◌≡◌, ◌+◌, ◌^◌, ◌<◌, ◌≤◌, IfOk};
ghost use Rattle.ho_model.specs.declared.objects.Object.TheVariants as object;

use crate::{QueueCall, QueueMachine, QueueReply};
use ho_base::Receipt;
use ho_model::Machine;
use std::alloc::Global;
use std::test::Fail;
use turn_lock::{Pass, Shared};

type Call = QueueCall;

type Reply = QueueReply;

/// A reply as a word and a number, 0 where it has none. A snapshot is told by its length.
fn told(reply: &Reply) -> (&'static str, u64) {
    match reply {
        Reply::Done => ("done", 0),
        Reply::Full => ("full", 0),
        Reply::Item(item) => ("item", *item),
        Reply::Empty => ("empty", 0),
        Reply::Count(count) => ("count", *count),
        Reply::Numbers(items) => ("items", items.as_slice().len() as u64),
    }
}

/// Whether a queue gives this reply to a call by caller 63.
fn answers(queue: &mut QueueMachine, call: Call, reply: (&'static str, u64)) -> bool
    requires short { queue.old.steps < 2 ^ 60 }
    ensures steps { queue.new.steps ≤ queue.old.steps + 1 }
{
    match queue.step(63, call) {
        Ok(given) => told(&given) == reply,
        Err(_) => false,
    }
}

#[test]
fn items_leave_in_the_order_of_entering(rt: HostRuntime) -> Result<(), Fail> {
    let mut queue = QueueMachine::new(rt.alloc(), 2)?;
    assert!(rt; answers(&mut queue, Call::Peek, ("empty", 0)));
    assert!(rt; answers(&mut queue, Call::Enqueue(7), ("done", 0)));
    assert!(rt; answers(&mut queue, Call::Enqueue(8), ("done", 0)));
    assert!(rt; answers(&mut queue, Call::Enqueue(9), ("full", 0)));
    assert!(rt;
        matches!(queue.step(0, Call::Snap), Ok(Reply::Numbers(items)) if items.as_slice() == [7, 8].as_slice())
    );
    assert!(rt; answers(&mut queue, Call::Peek, ("item", 7)));
    assert!(rt; answers(&mut queue, Call::Dequeue, ("item", 7)));
    assert!(rt; answers(&mut queue, Call::Enqueue(9), ("done", 0)));
    assert!(rt; answers(&mut queue, Call::Count, ("count", 2)));
    assert!(rt; answers(&mut queue, Call::Dequeue, ("item", 8)));
    assert!(rt; answers(&mut queue, Call::Dequeue, ("item", 9)));
    assert!(rt; answers(&mut queue, Call::Dequeue, ("empty", 0)));
    assert!(rt; queue.tally().enqueued == 3 && queue.tally().taken == 3);
    Ok(())
}

#[test]
fn a_queue_without_room_is_full(rt: HostRuntime) -> Result<(), Fail> {
    let mut queue = QueueMachine::new(rt.alloc(), 0)?;
    assert!(rt; answers(&mut queue, Call::Enqueue(1), ("full", 0)));
    assert!(rt; answers(&mut queue, Call::Dequeue, ("empty", 0)));
    Ok(())
}

#[test]
fn the_largest_queue_is_made(rt: HostRuntime) -> Result<(), Fail> {
    let mut queue = QueueMachine::with_first_length(rt.alloc(), 65_536, 1_024)?;
    assert!(rt; answers(&mut queue, Call::Enqueue(1), ("done", 0)));
    Ok(())
}

/// A machine behind a turn, whose pass is of the object with these parameters.
fn shared_machine(
    alloc: Global,
    room: u32,
    first_len: u32,
) -> Result<(Shared<QueueMachine>, Pass), Fail>
    ensures table { IfOk result (λ made. made.1.table ≡ made.0) }
    ensures object { IfOk result (λ made. made.1.object ≡ object.Queue room first_len) }
{
    let machine = QueueMachine::with_first_length(alloc, room, first_len)?;
    match Shared::new(alloc, machine, 2) {
        Ok(made) => Ok(made),
        Err(_) => Err(Fail::new("no queue")),
    }
}

#[test]
fn a_shared_machine_makes_snapshots(rt: HostRuntime) -> Result<(), Fail> {
    let (queue, mut pass) = shared_machine(rt.alloc(), 4, 8)?;
    assert!(rt;
        matches!(
            queue.call(&rt, &mut pass, Call::Enqueue(7)),
            Ok((Reply::Done, Receipt::Place { number: 0 }))
        )
    );
    assert!(rt;
        matches!(queue.call(&rt, &mut pass, Call::Snap), Ok((Reply::Numbers(items), _)) if items.as_slice() == [7].as_slice())
    );
    Ok(())
}
