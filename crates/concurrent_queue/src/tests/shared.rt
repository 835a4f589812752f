// The rows of both shared forms of a queue.
ghost use Rattle.std.specs.Prelude.{◌<◌, ◌≤◌};
ghost use Rattle.concurrent_queue.specs.Queues.{IsOf};

use crate::{
    ConcurrentQueue, DequeueReply, EnqueueReply, QueueOnce, QueuePass, QueueRefused, TurnQueue,
};
use ho_base::Receipt;
use std::test::Fail;

fn at(position: u64) -> Receipt {
    Receipt::Enqueued {
        position,
        segment: 0,
    }
}

fn looked(head: u64, tail: u64) -> Receipt {
    Receipt::Looked { head, tail }
}

fn took(item: u64, position: u64) -> QueueOnce<DequeueReply> {
    QueueOnce::Answer(DequeueReply::Item(item), Receipt::Dequeued { position })
}

/// A try after which the next call may follow.
fn enqueues(queue: &ConcurrentQueue, pass: &mut QueuePass, value: u64) -> QueueOnce<EnqueueReply>
    requires { IsOf queue.now pass.old }
    ensures { IsOf queue.now pass.new }
{
    queue.enqueue_once(pass, value)
}

/// The same.
fn dequeues(queue: &ConcurrentQueue, pass: &mut QueuePass) -> QueueOnce<DequeueReply>
    requires { IsOf queue.now pass.old }
    ensures { IsOf queue.now pass.new }
{
    queue.dequeue_once(pass)
}

/// The same.
fn peeks(queue: &ConcurrentQueue, pass: &mut QueuePass) -> QueueOnce<DequeueReply>
    requires { IsOf queue.now pass.old }
    ensures { IsOf queue.now pass.new }
{
    queue.peek_once(pass)
}

/// The same.
fn counts(queue: &ConcurrentQueue, pass: &mut QueuePass) -> QueueOnce<u64>
    requires { IsOf queue.now pass.old }
    ensures { IsOf queue.now pass.new }
{
    queue.count_once(pass)
}

/// Whether an enqueue of the position's number is done there, in this segment.
fn is_put(queue: &ConcurrentQueue, pass: &mut QueuePass, position: u64, segment: u64) -> bool
    requires { IsOf queue.now pass.old }
    ensures { IsOf queue.now pass.new }
{
    let receipt = Receipt::Enqueued { position, segment };
    enqueues(queue, pass, position) == QueueOnce::Answer(EnqueueReply::Done, receipt)
}

/// Whether a dequeue finds no item, after this many enqueues and takes.
fn is_empty(queue: &ConcurrentQueue, pass: &mut QueuePass, count: u64) -> bool
    requires { IsOf queue.now pass.old }
    ensures { IsOf queue.now pass.new }
{
    dequeues(queue, pass) == QueueOnce::Answer(DequeueReply::Empty, looked(count, count))
}

/// Why no queue is made, if none is.
fn refused(rt: &HostRuntime, room: u32, first_len: u32, callers: u32) -> Option<QueueRefused>
    requires { (0 < callers) × (callers ≤ 64) }
{
    match ConcurrentQueue::new(rt.alloc(), room, first_len, callers) {
        Ok(_) => None,
        Err(refused) => Some(refused),
    }
}

#[test]
fn parameters_are_refused_in_order(rt: HostRuntime) -> Result<(), Fail> {
    assert_eq!(rt; refused(&rt, 0, 2, 1), Some(QueueRefused::BadRoom));
    assert_eq!(rt; refused(&rt, 65_537, 3, 1), Some(QueueRefused::BadRoom));
    assert_eq!(rt; refused(&rt, 8, 3, 1), Some(QueueRefused::BadLength));
    assert_eq!(rt; refused(&rt, 8, 1, 1), Some(QueueRefused::BadLength));
    assert_eq!(rt; refused(&rt, 8, 2_048, 1), Some(QueueRefused::BadLength));
    assert_eq!(rt; refused(&rt, 65_536, 2, 64), Some(QueueRefused::TooLarge));
    assert_eq!(rt; refused(&rt, 65_536, 1_024, 1), None);
    assert_eq!(rt; refused(&rt, 4_096, 32, 8), None);
    Ok(())
}

#[test]
fn each_segment_is_twice_as_long_as_the_one_before(rt: HostRuntime) -> Result<(), Fail> {
    let Ok((queue, mut pass)) = ConcurrentQueue::new(rt.alloc(), 64, 2, 1) else {
        assert!(rt; false);
        return Ok(());
    };
    // 2 positions, then 4, then 8
    assert!(rt; is_put(&queue, &mut pass, 0, 0));
    assert!(rt; is_put(&queue, &mut pass, 1, 0));
    assert!(rt; is_put(&queue, &mut pass, 2, 1));
    assert!(rt; is_put(&queue, &mut pass, 3, 1));
    assert!(rt; is_put(&queue, &mut pass, 4, 1));
    assert!(rt; is_put(&queue, &mut pass, 5, 1));
    assert!(rt; is_put(&queue, &mut pass, 6, 2));
    assert!(rt; is_put(&queue, &mut pass, 7, 2));
    assert!(rt; is_put(&queue, &mut pass, 8, 2));
    Ok(())
}

#[test]
fn items_of_two_segments_are_taken_in_order(rt: HostRuntime) -> Result<(), Fail> {
    let Ok((queue, mut pass)) = ConcurrentQueue::new(rt.alloc(), 8, 2, 1) else {
        assert!(rt; false);
        return Ok(());
    };
    let queue = &queue;
    let pass = &mut pass;
    assert!(rt; is_empty(queue, pass, 0));
    assert!(rt; enqueues(queue, pass, 1) == QueueOnce::Answer(EnqueueReply::Done, at(0)));
    assert!(rt; enqueues(queue, pass, 2) == QueueOnce::Answer(EnqueueReply::Done, at(1)));
    let third = Receipt::Enqueued {
        position: 2,
        segment: 1,
    };
    assert!(rt; enqueues(queue, pass, 3) == QueueOnce::Answer(EnqueueReply::Done, third));
    assert!(rt; dequeues(queue, pass) == took(1, 0));
    assert!(rt; dequeues(queue, pass) == took(2, 1));
    assert!(rt; dequeues(queue, pass) == took(3, 2));
    assert!(rt; is_empty(queue, pass, 3));
    Ok(())
}

#[test]
fn a_lone_caller_meets_nobody(rt: HostRuntime) -> Result<(), Fail> {
    let Ok((queue, mut pass)) = ConcurrentQueue::new(rt.alloc(), 2, 2, 1) else {
        assert!(rt; false);
        return Ok(());
    };
    let queue = &queue;
    let pass = &mut pass;
    assert!(rt; dequeues(queue, pass) == QueueOnce::Answer(DequeueReply::Empty, looked(0, 0)));
    assert!(rt; enqueues(queue, pass, 7) == QueueOnce::Answer(EnqueueReply::Done, at(0)));
    assert!(rt; enqueues(queue, pass, 8) == QueueOnce::Answer(EnqueueReply::Done, at(1)));
    assert!(rt; enqueues(queue, pass, 9) == QueueOnce::Answer(EnqueueReply::Full, looked(0, 2)));
    assert!(rt; counts(queue, pass) == QueueOnce::Answer(2, looked(0, 2)));
    let shown = Receipt::Peeked { position: 0 };
    assert!(rt; peeks(queue, pass) == QueueOnce::Answer(DequeueReply::Item(7), shown));
    assert!(rt; dequeues(queue, pass) == took(7, 0));
    assert!(rt; enqueues(queue, pass, 9) == QueueOnce::Answer(EnqueueReply::Done, at(2)));
    Ok(())
}

/// Whether two items that are enqueued are dequeued in this order, the first as that of the position.
fn goes_through(queue: &ConcurrentQueue, pass: &mut QueuePass, position: u64) -> bool
    requires { IsOf queue.now pass.old }
    ensures { IsOf queue.now pass.new }
{
    let next = position.wrapping_add(1);
    let first = enqueues(queue, pass, position);
    let second = enqueues(queue, pass, next);
    let items = (dequeues(queue, pass), dequeues(queue, pass));
    matches!(first, QueueOnce::Answer(EnqueueReply::Done, _))
        && matches!(second, QueueOnce::Answer(EnqueueReply::Done, _))
        && items == (took(position, position), took(next, next))
}

#[test]
fn items_go_through_in_order(rt: HostRuntime) -> Result<(), Fail> {
    let Ok((queue, mut pass)) = ConcurrentQueue::new(rt.alloc(), 4, 2, 1) else {
        assert!(rt; false);
        return Ok(());
    };
    for turn in 0..1_000 {
        assert!(rt; goes_through(&queue, &mut pass, 2 * turn));
    }
    Ok(())
}

#[test]
fn passes_split_and_join(rt: HostRuntime) -> Result<(), Fail> {
    let Ok((queue, mut a)) = ConcurrentQueue::new(rt.alloc(), 4, 2, 2) else {
        assert!(rt; false);
        return Ok(());
    };
    let mut b = queue.split(&mut a);
    assert_eq!(rt; b.caller(), 1);
    assert_eq!(rt; b.spare(), 0);
    assert_eq!(rt; queue.enqueue(&rt, &mut b, 5).0, EnqueueReply::Done);
    assert_eq!(rt; queue.dequeue(&rt, &mut a).0, DequeueReply::Item(5));
    queue.join(&mut a, b);
    assert_eq!(rt; a.spare(), 1);
    Ok(())
}

#[test]
fn the_form_behind_a_turn_answers_alike(rt: HostRuntime) -> Result<(), Fail> {
    let Ok((queue, mut pass)) = TurnQueue::new(rt.alloc(), 2, 2, 1) else {
        assert!(rt; false);
        return Ok(());
    };
    assert_eq!(rt; queue.room(), 2);
    assert_eq!(rt;
        queue.enqueue(&rt, &mut pass, 7),
        (EnqueueReply::Done, at(0))
    );
    assert_eq!(rt;
        queue.enqueue(&rt, &mut pass, 8),
        (EnqueueReply::Done, at(1))
    );
    assert_eq!(rt;
        queue.enqueue(&rt, &mut pass, 9),
        (EnqueueReply::Full, looked(0, 2))
    );
    assert_eq!(rt;
        queue.peek(&rt, &mut pass),
        (DequeueReply::Item(7), Receipt::Peeked { position: 0 })
    );
    assert_eq!(rt;
        queue.dequeue(&rt, &mut pass),
        (DequeueReply::Item(7), Receipt::Dequeued { position: 0 })
    );
    assert_eq!(rt;
        queue.enqueue(&rt, &mut pass, 9),
        (EnqueueReply::Done, at(2))
    );
    assert_eq!(rt; queue.count(&rt, &mut pass), (2, looked(1, 3)));
    assert_eq!(rt;
        queue.dequeue(&rt, &mut pass),
        (DequeueReply::Item(8), Receipt::Dequeued { position: 1 })
    );
    assert_eq!(rt;
        queue.dequeue(&rt, &mut pass),
        (DequeueReply::Item(9), Receipt::Dequeued { position: 2 })
    );
    assert_eq!(rt;
        queue.dequeue(&rt, &mut pass),
        (DequeueReply::Empty, looked(3, 3))
    );
    assert_eq!(rt;
        queue.peek(&rt, &mut pass),
        (DequeueReply::Empty, looked(3, 3))
    );
    Ok(())
}
