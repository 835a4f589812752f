// Worked rows. Threads share the queue in the tests above all structures.
ghost use Rattle.std.specs.Prelude.{◌<◌, ◌≤◌};
ghost use Rattle.concurrent_queue.specs.Queues.{IsOf};

use crate::{observe, to_vec};
use concurrent_queue::{ConcurrentQueue, Next, QueuePass, Receipt};
use std::sync::Wait;
use std::test::Fail;

/// Enqueues the numbers from one up to another.
fn fill<R: Wait>(rt: &R, queue: &ConcurrentQueue, pass: &mut QueuePass, from: u64, until: u64)
    requires { IsOf queue.now pass.old }
    ensures { IsOf queue.now pass.new }
{
    for value in from..until {
        let _ = queue.enqueue(rt, pass, value);
    }
}

/// Takes so many items.
fn take<R: Wait>(rt: &R, queue: &ConcurrentQueue, pass: &mut QueuePass, count: u64)
    requires { IsOf queue.now pass.old }
    ensures { IsOf queue.now pass.new }
{
    for _ in 0..count {
        let _ = queue.dequeue(rt, pass);
    }
}

#[test]
fn a_list_has_all_items_across_segments(rt: HostRuntime) -> Result<(), Fail> {
    let Ok((queue, mut pass)) = ConcurrentQueue::new(rt.alloc(), 8, 2, 2) else {
        panic!(rt; "no queue");
    };
    fill(&rt, &queue, &mut pass, 1, 6);
    take(&rt, &queue, &mut pass, 2);
    let (items, receipt) = to_vec(&rt, rt.alloc(), &queue, &mut pass)?;
    assert!(rt; items.as_slice() == [3, 4, 5].as_slice());
    assert!(rt; receipt == Receipt::Looked { head: 2, tail: 5 });
    Ok(())
}

#[test]
fn an_empty_queue_has_an_empty_list(rt: HostRuntime) -> Result<(), Fail> {
    let Ok((queue, mut pass)) = ConcurrentQueue::new(rt.alloc(), 8, 2, 1) else {
        panic!(rt; "no queue");
    };
    let (items, receipt) = to_vec(&rt, rt.alloc(), &queue, &mut pass)?;
    assert!(rt; items.as_slice().is_empty());
    assert!(rt; receipt == Receipt::Looked { head: 0, tail: 0 });
    Ok(())
}

#[test]
fn what_others_do_changes_no_item_that_is_observed(rt: HostRuntime) -> Result<(), Fail> {
    let Ok((queue, mut pass)) = ConcurrentQueue::new(rt.alloc(), 8, 2, 2) else {
        panic!(rt; "no queue");
    };
    let mut other = queue.split(&mut pass);
    fill(&rt, &queue, &mut pass, 1, 4);
    let mut observed = observe(&rt, &queue, &mut pass);
    take(&rt, &queue, &mut other, 3);
    fill(&rt, &queue, &mut other, 6, 9);
    assert!(rt; observed.receipt() == Receipt::Looked { head: 0, tail: 3 });
    assert!(rt; observed.left() == 3);
    assert!(rt; observed.next(&rt) == Some(1));
    assert!(rt; observed.next_once() == Next::Item(2));
    assert!(rt; observed.next(&rt) == Some(3));
    assert!(rt; observed.left() == 0);
    assert!(rt; observed.next_once() == Next::End);
    assert!(rt; observed.next(&rt).is_none());
    observed.end();
    fill(&rt, &queue, &mut pass, 9, 10);
    Ok(())
}
