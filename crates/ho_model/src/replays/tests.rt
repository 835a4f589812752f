// Worked histories, judged.
use super::replay;
use crate::histories::{Call, Entry, Items, Reply, Verdict};
use crate::objects::{Mode, Object, Store};
use std::test::Fail;

/// A history that is written entry by entry.
#[derive(Drop)]
struct Written {
    entries: Vec<Entry>,
}

impl Written {
    fn new(rt: &HostRuntime) -> Written {
        Written {
            entries: Vec::new(rt.alloc()),
        }
    }

    fn by(&mut self, caller: u32, call: Call, reply: Reply) -> Result<(), Fail> {
        self.entries.push(Entry {
            caller,
            call,
            reply,
        })?;
        Ok(())
    }

    /// The place of the first refused entry, or None where the history is legal.
    fn refused(&self, rt: &HostRuntime, object: Object) -> Result<Option<u64>, Fail> {
        match replay(rt.alloc(), &object, self.entries.as_slice())? {
            Verdict::Legal => Ok(None),
            Verdict::IllegalAt { entry } => Ok(Some(entry)),
        }
    }
}

fn queue(room: u32) -> Object {
    Object::Queue { room, first_len: 2 }
}

fn bounded(capacity: u32, mode: Mode) -> Object {
    Object::Bounded { capacity, mode }
}

fn blocking(store: Store, bound: Option<u32>) -> Object {
    Object::Blocking { store, bound }
}

#[test]
fn a_queue_has_its_room_and_its_order(rt: HostRuntime) -> Result<(), Fail> {
    let mut row = Written::new(&rt);
    row.by(0, Call::Enq(7), Reply::Done)?;
    row.by(0, Call::Enq(8), Reply::Done)?;
    row.by(0, Call::Enq(9), Reply::Full)?;
    let both = Items::from_vec(Vec::from_slice(rt.alloc(), &[7, 8])?);
    row.by(1, Call::Snap, Reply::Numbers(both))?;
    row.by(1, Call::Peek, Reply::Item(7))?;
    row.by(0, Call::Deq, Reply::Item(7))?;
    row.by(0, Call::Count, Reply::Count(1))?;
    assert_eq!(rt; row.refused(&rt, queue(2))?, None);
    assert_eq!(rt; row.refused(&rt, queue(3))?, Some(2));
    assert_eq!(rt; row.refused(&rt, queue(0))?, Some(0));
    assert_eq!(rt; row.refused(&rt, Object::Bag)?, Some(0));
    row.by(0, Call::Deq, Reply::Item(9))?;
    assert_eq!(rt; row.refused(&rt, queue(2))?, Some(7));
    Ok(())
}

#[test]
fn a_full_channel_drops_by_its_mode(rt: HostRuntime) -> Result<(), Fail> {
    let mut row = Written::new(&rt);
    row.by(0, Call::Write(1), Reply::Done)?;
    row.by(0, Call::Write(2), Reply::Done)?;
    row.by(0, Call::BeginWrite(3), Reply::Dropped(2))?;
    row.by(0, Call::Read, Reply::Item(1))?;
    row.by(0, Call::BeginRead, Reply::Item(3))?;
    row.by(0, Call::BeginRead, Reply::Waiting(2))?;
    assert_eq!(rt; row.refused(&rt, bounded(2, Mode::DropNewest))?, None);
    assert_eq!(rt; row.refused(&rt, bounded(2, Mode::DropOldest))?, Some(2));
    assert_eq!(rt; row.refused(&rt, bounded(2, Mode::DropWrite))?, Some(2));
    assert_eq!(rt; row.refused(&rt, bounded(2, Mode::Wait))?, Some(2));
    let mut none = Written::new(&rt);
    none.by(0, Call::Write(1), Reply::Dropped(1))?;
    assert_eq!(rt; none.refused(&rt, bounded(0, Mode::DropWrite))?, None);
    assert_eq!(rt; none.refused(&rt, bounded(0, Mode::DropNewest))?, Some(0));
    assert_eq!(rt; none.refused(&rt, bounded(0, Mode::DropOldest))?, Some(0));
    Ok(())
}

#[test]
fn waits_are_served_in_order_and_fetched_once(rt: HostRuntime) -> Result<(), Fail> {
    let mut row = Written::new(&rt);
    row.by(0, Call::BeginRead, Reply::Waiting(0))?;
    row.by(1, Call::BeginRead, Reply::Waiting(0))?;
    row.by(0, Call::Write(5), Reply::Done)?;
    row.by(1, Call::Poll(0), Reply::Waiting(0))?;
    row.by(0, Call::Poll(0), Reply::Item(5))?;
    row.by(0, Call::Poll(0), Reply::Unknown)?;
    row.by(0, Call::Write(6), Reply::Done)?;
    row.by(1, Call::Cancel(0), Reply::Item(6))?;
    row.by(0, Call::Write(7), Reply::Full)?;
    assert_eq!(rt; row.refused(&rt, bounded(0, Mode::Wait))?, None);
    assert_eq!(rt; row.refused(&rt, Object::Unbounded)?, Some(8));
    row.by(0, Call::BeginWrite(8), Reply::Waiting(1))?;
    row.by(0, Call::Cancel(1), Reply::Cancelled)?;
    assert_eq!(rt; row.refused(&rt, bounded(0, Mode::Wait))?, Some(10));
    Ok(())
}

#[test]
fn a_completion_is_told_with_any_fault(rt: HostRuntime) -> Result<(), Fail> {
    let mut row = Written::new(&rt);
    row.by(0, Call::Write(1), Reply::Done)?;
    row.by(0, Call::BeginWrite(2), Reply::Waiting(0))?;
    row.by(1, Call::BeginLookWrite, Reply::Waiting(0))?;
    row.by(0, Call::CompleteWith(70_000), Reply::Flag(true))?;
    row.by(0, Call::CompleteWith(0), Reply::Flag(false))?;
    row.by(0, Call::Poll(0), Reply::Refused(70_000, 2))?;
    row.by(1, Call::Poll(0), Reply::Faulted(70_000))?;
    row.by(0, Call::Completed, Reply::Flag(false))?;
    row.by(0, Call::Peek, Reply::Item(1))?;
    row.by(0, Call::BeginLookRead, Reply::Ready(true))?;
    row.by(0, Call::Read, Reply::Item(1))?;
    row.by(0, Call::Completed, Reply::Flag(true))?;
    row.by(0, Call::Read, Reply::ClosedWith(70_000))?;
    assert_eq!(rt; row.refused(&rt, bounded(1, Mode::Wait))?, None);
    row.by(0, Call::Read, Reply::ClosedWith(70_001))?;
    row.by(64, Call::Read, Reply::ClosedWith(70_000))?;
    assert_eq!(rt; row.refused(&rt, bounded(1, Mode::Wait))?, Some(13));
    Ok(())
}

#[test]
fn a_prioritized_channel_reads_the_first_of_least_priority(rt: HostRuntime) -> Result<(), Fail> {
    let mut row = Written::new(&rt);
    row.by(63, Call::Write(2001), Reply::Done)?;
    row.by(63, Call::Write(1003), Reply::Done)?;
    row.by(63, Call::Write(1002), Reply::Done)?;
    row.by(63, Call::Peek, Reply::Item(1003))?;
    row.by(63, Call::Read, Reply::Item(1003))?;
    row.by(63, Call::Read, Reply::Item(1002))?;
    row.by(63, Call::Count, Reply::Count(1))?;
    assert_eq!(rt; row.refused(&rt, Object::Prioritized)?, None);
    assert_eq!(rt; row.refused(&rt, Object::Unbounded)?, Some(3));
    row.by(64, Call::Count, Reply::Count(1))?;
    assert_eq!(rt; row.refused(&rt, Object::Prioritized)?, Some(7));
    Ok(())
}

#[test]
fn a_bag_takes_as_its_replies_say(rt: HostRuntime) -> Result<(), Fail> {
    let mut row = Written::new(&rt);
    row.by(1, Call::Add(3), Reply::Done)?;
    row.by(0, Call::Add(1), Reply::Done)?;
    row.by(0, Call::Add(2), Reply::Done)?;
    row.by(2, Call::Take, Reply::ItemFrom(3, 1))?;
    row.by(0, Call::Take, Reply::ItemFrom(2, 0))?;
    row.by(2, Call::Take, Reply::ItemFrom(1, 0))?;
    row.by(2, Call::Take, Reply::Empty)?;
    row.by(2, Call::Count, Reply::Count(0))?;
    assert_eq!(rt; row.refused(&rt, Object::Bag)?, None);
    row.by(1, Call::Add(4), Reply::Done)?;
    let four = Items::from_vec(Vec::from_slice(rt.alloc(), &[4])?);
    row.by(1, Call::Snap, Reply::Numbers(four))?;
    row.by(2, Call::Take, Reply::ItemFrom(4, 64))?;
    assert_eq!(rt; row.refused(&rt, Object::Bag)?, Some(10));
    Ok(())
}

#[test]
fn a_blocking_collection_has_its_store_and_its_bound(rt: HostRuntime) -> Result<(), Fail> {
    let mut row = Written::new(&rt);
    row.by(1, Call::Add(3), Reply::Done)?;
    row.by(0, Call::Add(1), Reply::Done)?;
    row.by(0, Call::Add(2), Reply::Done)?;
    row.by(2, Call::Take, Reply::Item(1))?;
    row.by(0, Call::CompleteAdding, Reply::Done)?;
    row.by(0, Call::AddingCompleted, Reply::Flag(true))?;
    row.by(0, Call::Completed, Reply::Flag(false))?;
    row.by(0, Call::Take, Reply::Item(2))?;
    row.by(0, Call::Take, Reply::Item(3))?;
    row.by(0, Call::Take, Reply::Ended)?;
    assert_eq!(rt; row.refused(&rt, blocking(Store::Bag, Some(3)))?, None);
    assert_eq!(rt; row.refused(&rt, blocking(Store::Bag, Some(2)))?, Some(2));
    assert_eq!(rt; row.refused(&rt, blocking(Store::Bag, Some(0)))?, Some(0));
    assert_eq!(rt; row.refused(&rt, blocking(Store::Fifo, None))?, Some(3));
    assert_eq!(rt; row.refused(&rt, blocking(Store::Lifo, None))?, Some(3));
    Ok(())
}
