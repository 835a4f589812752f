// Calls of a lone caller, one after another.
#![tactic(auto, using(crate::proofs::Worked::power_2))]

ghost use Rattle.queue_tries.specs.Tries.{IsIdle};

use super::*;
use ho_base::Receipt;
use seg_rule::{QueuePass, QueueTable};
use std::test::Fail;

#[test]
fn an_empty_queue_counts_none(rt: HostRuntime) -> Result<(), Fail> {
    let (table, mut pass) = QueueTable::new(rt.alloc(), 2, 2, 1)?;
    let none = Receipt::Looked { head: 0, tail: 0 };
    assert!(rt; count_once(&table, &mut pass) == QueueOnce::Answer(0, none));
    assert!(rt; count(&rt, &table, &mut pass) == (0, none));
    Ok(())
}

#[test]
fn an_empty_queue_has_no_first_item(rt: HostRuntime) -> Result<(), Fail> {
    let (table, mut pass) = QueueTable::new(rt.alloc(), 2, 2, 1)?;
    let none = QueueOnce::Answer(DequeueReply::Empty, Receipt::Looked { head: 0, tail: 0 });
    assert!(rt; peek_once(&table, &mut pass) == none);
    assert!(rt; dequeue_once(&table, &mut pass) == none);
    Ok(())
}

/// Whether an enqueue is done, at this position of this segment.
fn is_put(table: &QueueTable, pass: &mut QueuePass, value: u64, position: u64, segment: u64) -> bool
    requires { IsIdle table.now pass.old }
    ensures { IsIdle table.now pass.new }
{
    let receipt = Receipt::Enqueued { position, segment };
    enqueue_once(table, pass, value) == QueueOnce::Answer(EnqueueReply::Done, receipt)
}

/// Whether an enqueue is full, with this head and this tail.
fn is_full(table: &QueueTable, pass: &mut QueuePass, head: u64, tail: u64) -> bool
    requires { IsIdle table.now pass.old }
    ensures { IsIdle table.now pass.new }
{
    let receipt = Receipt::Looked { head, tail };
    enqueue_once(table, pass, 0) == QueueOnce::Answer(EnqueueReply::Full, receipt)
}

#[test]
fn behind_a_full_segment_another_is_opened_up_to_the_room(rt: HostRuntime) -> Result<(), Fail> {
    let (table, mut pass) = QueueTable::new(rt.alloc(), 4, 2, 1)?;
    assert!(rt; is_put(&table, &mut pass, 7, 0, 0));
    assert!(rt; is_put(&table, &mut pass, 8, 1, 0));
    assert!(rt; is_put(&table, &mut pass, 9, 2, 1));
    assert!(rt; is_put(&table, &mut pass, 7, 3, 1));
    assert!(rt; is_full(&table, &mut pass, 0, 4));
    Ok(())
}

/// Whether a peek and then a dequeue give this item, at this position.
fn is_taken(table: &QueueTable, pass: &mut QueuePass, item: u64, position: u64) -> bool
    requires { IsIdle table.now pass.old }
    ensures { IsIdle table.now pass.new }
{
    let item = DequeueReply::Item(item);
    let peeked = QueueOnce::Answer(item, Receipt::Peeked { position });
    let taken = QueueOnce::Answer(item, Receipt::Dequeued { position });
    let is_peeked = peek_once(table, pass) == peeked;
    let is_dequeued = dequeue_once(table, pass) == taken;
    is_peeked && is_dequeued
}

/// Whether a dequeue finds no item, with this head.
fn is_empty(table: &QueueTable, pass: &mut QueuePass, head: u64) -> bool
    requires { IsIdle table.now pass.old }
    ensures { IsIdle table.now pass.new }
{
    let receipt = Receipt::Looked { head, tail: head };
    dequeue_once(table, pass) == QueueOnce::Answer(DequeueReply::Empty, receipt)
}

#[test]
fn items_are_taken_in_order_across_segments(rt: HostRuntime) -> Result<(), Fail> {
    let (table, mut pass) = QueueTable::new(rt.alloc(), 4, 2, 1)?;
    assert!(rt; is_put(&table, &mut pass, 7, 0, 0));
    assert!(rt; is_put(&table, &mut pass, 8, 1, 0));
    assert!(rt; is_put(&table, &mut pass, 9, 2, 1));
    assert!(rt; is_taken(&table, &mut pass, 7, 0));
    assert!(rt; is_taken(&table, &mut pass, 8, 1));
    assert!(rt; is_taken(&table, &mut pass, 9, 2));
    assert!(rt; is_empty(&table, &mut pass, 3));
    Ok(())
}
