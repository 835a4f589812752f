// The worked rows of a bag, as calls of `step`.
ghost use Rattle.std.specs.Prelude.{◌≡◌, ◌+◌, ◌^◌, ◌<◌, ◌≤◌};

use crate::{BagAdd, BagCall, BagMachine, BagReply, BagTake, ConcurrentBag};
use ho_base::Receipt;
use ho_model::Machine;
use std::test::Fail;

type Call = BagCall<u64>;

type Reply = BagReply<u64>;

/// A reply as a word and numbers, 0 where it has none. A snapshot is told by its length.
fn told(reply: &Reply) -> (&'static str, u64, u32) {
    match reply {
        Reply::Done => ("done", 0, 0),
        Reply::Full(item) => ("full", *item, 0),
        Reply::Item { from, item } => ("item", *item, *from),
        Reply::Empty => ("empty", 0, 0),
        Reply::Count(count) => ("count", *count, 0),
        Reply::Numbers(items) => ("items", items.as_slice().len() as u64, 0),
    }
}

/// Whether a bag gives this reply to a call.
fn answers(
    bag: &mut BagMachine<u64>,
    caller: u32,
    call: Call,
    reply: (&'static str, u64, u32),
) -> bool
    requires caller { caller < bag.old.callers }
    requires short { bag.old.steps < 2 ^ 60 }
    ensures callers { bag.new.callers ≡ bag.old.callers }
    ensures steps { bag.new.steps ≤ bag.old.steps + 1 }
{
    match bag.step(caller, call) {
        Ok(given) => told(&given) == reply,
        Err(_) => false,
    }
}

#[test]
fn a_caller_without_items_takes_the_first_of_another(rt: HostRuntime) -> Result<(), Fail> {
    let mut bag = BagMachine::new(rt.alloc(), 2)?;
    assert!(rt; answers(&mut bag, 0, Call::Add(1), ("done", 0, 0)));
    assert!(rt; answers(&mut bag, 0, Call::Add(2), ("done", 0, 0)));
    assert!(rt;
        matches!(bag.step(1, Call::Snap), Ok(Reply::Numbers(items)) if items.as_slice() == [1, 2].as_slice())
    );
    assert!(rt; answers(&mut bag, 1, Call::Take, ("item", 1, 0)));
    assert!(rt; answers(&mut bag, 0, Call::Take, ("item", 2, 0)));
    assert!(rt; answers(&mut bag, 0, Call::Take, ("empty", 0, 0)));
    assert!(rt; answers(&mut bag, 1, Call::Take, ("empty", 0, 0)));
    assert!(rt; answers(&mut bag, 1, Call::Count, ("count", 0, 0)));
    assert!(rt; answers(&mut bag, 1, Call::Snap, ("items", 0, 0)));
    Ok(())
}

#[test]
fn a_caller_takes_its_own_last_item_first(rt: HostRuntime) -> Result<(), Fail> {
    let mut bag = BagMachine::new(rt.alloc(), 64)?;
    assert!(rt; answers(&mut bag, 0, Call::Add(1), ("done", 0, 0)));
    assert!(rt; answers(&mut bag, 63, Call::Add(2), ("done", 0, 0)));
    assert!(rt; answers(&mut bag, 63, Call::Add(3), ("done", 0, 0)));
    assert!(rt; answers(&mut bag, 0, Call::Count, ("count", 3, 0)));
    assert!(rt; answers(&mut bag, 63, Call::Take, ("item", 3, 63)));
    assert!(rt; answers(&mut bag, 63, Call::Take, ("item", 2, 63)));
    assert!(rt; answers(&mut bag, 63, Call::Take, ("item", 1, 0)));
    Ok(())
}

/// Whether a bag takes so many items, from 0, into the list of caller 0.
fn fills(bag: &mut BagMachine<u64>, count: u64) -> bool
    requires caller { 0 < bag.old.callers }
    requires short { bag.old.steps + count < 2 ^ 60 }
    ensures callers { bag.new.callers ≡ bag.old.callers }
    ensures steps { bag.new.steps ≤ bag.old.steps + count }
{
    for item in 0..count {
        if !answers(bag, 0, Call::Add(item), ("done", 0, 0)) {
            return false;
        }
    }
    true
}

#[test]
fn a_list_is_full_at_its_limit_and_others_are_not(rt: HostRuntime) -> Result<(), Fail> {
    let mut bag = BagMachine::new(rt.alloc(), 2)?;
    assert!(rt; fills(&mut bag, 16_383));
    assert!(rt; answers(&mut bag, 0, Call::Add(7), ("full", 7, 0)));
    assert!(rt; answers(&mut bag, 1, Call::Add(8), ("done", 0, 0)));
    assert!(rt; answers(&mut bag, 0, Call::Take, ("item", 16_382, 0)));
    assert!(rt; answers(&mut bag, 0, Call::Add(7), ("done", 0, 0)));
    Ok(())
}

fn place(number: u64) -> Receipt {
    Receipt::Place { number }
}

#[test]
fn a_shared_bag_lets_a_caller_steal(rt: HostRuntime) -> Result<(), Fail> {
    let (bag, mut a) = ConcurrentBag::new(rt.alloc(), 2)?;
    let mut b = bag.split(&mut a);
    assert_eq!(rt; (a.spare(), b.caller()), (0, 1));
    assert!(rt; matches!(bag.add(&rt, &mut a, 1u64), Ok((BagAdd::Done, at)) if at == place(0)));
    assert!(rt; matches!(bag.add(&rt, &mut a, 2u64), Ok((BagAdd::Done, at)) if at == place(1)));
    assert_eq!(rt;
        bag.take(&rt, &mut b),
        (BagTake::Item { from: 0, item: 1 }, place(2))
    );
    assert_eq!(rt;
        bag.take(&rt, &mut a),
        (BagTake::Item { from: 0, item: 2 }, place(3))
    );
    assert_eq!(rt; bag.take(&rt, &mut a), (BagTake::Empty, place(4)));
    assert_eq!(rt; bag.take(&rt, &mut b), (BagTake::Empty, place(5)));
    assert_eq!(rt; bag.count(&rt, &mut b), (0, place(6)));
    bag.join(&mut a, b);
    assert!(rt;
        matches!(bag.snapshot(&rt, rt.alloc(), &mut a), Ok((items, at)) if items.as_slice().is_empty() && at == place(7))
    );
    Ok(())
}

#[test]
fn a_snapshot_shows_what_is_there(rt: HostRuntime) -> Result<(), Fail> {
    let (bag, mut pass) = ConcurrentBag::new(rt.alloc(), 1)?;
    assert!(rt; matches!(bag.add(&rt, &mut pass, 5u64), Ok((BagAdd::Done, _))));
    assert!(rt;
        matches!(bag.snapshot(&rt, rt.alloc(), &mut pass), Ok((items, at)) if items.as_slice() == [5].as_slice() && at == place(1))
    );
    assert_eq!(rt;
        bag.take(&rt, &mut pass),
        (BagTake::Item { from: 0, item: 5 }, place(2))
    );
    assert_eq!(rt; bag.take(&rt, &mut pass), (BagTake::Empty, place(3)));
    Ok(())
}
