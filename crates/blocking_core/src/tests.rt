// The worked rows of a blocking collection, as calls of `step`.
ghost use Rattle.std.specs.Prelude.{◌≡◌, ◌+◌, ◌^◌, ◌<◌, ◌≤◌};
ghost use Rattle.std.specs.Option.{ForSome};

use super::*;
use ho_model::{Machine, Store};
use std::test::Fail;

type Call = BlockingCall<u64>;

type Reply = BlockingReply<u64>;

/// A reply as a word and a number, 0 where it has none. A snapshot is told by its length.
fn told(reply: &Reply) -> (&'static str, u64) {
    match reply {
        Reply::Done => ("done", 0),
        Reply::Full(item) => ("full", *item),
        Reply::Closed(item) => ("closed", *item),
        Reply::Item(item) => ("item", *item),
        Reply::Empty => ("empty", 0),
        Reply::Ended => ("ended", 0),
        Reply::Flag(true) => ("yes", 0),
        Reply::Flag(false) => ("no", 0),
        Reply::Count(count) => ("count", *count),
        Reply::Numbers(items) => ("items", items.as_slice().len() as u64),
    }
}

/// Whether a collection gives this reply to a call.
fn answers(
    state: &mut BlockingState<u64>,
    caller: u32,
    call: Call,
    reply: (&'static str, u64),
) -> bool
    requires caller { caller < state.old.callers }
    requires short { state.old.steps < 2 ^ 60 }
    ensures callers { state.new.callers ≡ state.old.callers }
    ensures steps { state.new.steps ≤ state.old.steps + 1 }
{
    match state.step(caller, call) {
        Ok(given) => told(&given) == reply,
        Err(_) => false,
    }
}

/// Whether a snapshot shows these numbers.
fn shows(state: &mut BlockingState<u64>, numbers: &[u64]) -> bool
    requires caller { 0 < state.old.callers }
    requires short { state.old.steps < 2 ^ 60 }
    ensures callers { state.new.callers ≡ state.old.callers }
    ensures steps { state.new.steps ≤ state.old.steps + 1 }
{
    match state.step(0, Call::Snap) {
        Ok(Reply::Numbers(items)) => items.as_slice() == numbers,
        _ => false,
    }
}

#[test]
fn adding_ends_and_what_was_added_is_taken(rt: HostRuntime) -> Result<(), Fail> {
    let mut state = BlockingState::new(rt.alloc(), Store::Fifo, Some(1), 1)?;
    assert!(rt; answers(&mut state, 0, Call::Add(4), ("done", 0)));
    assert!(rt; answers(&mut state, 0, Call::Add(5), ("full", 5)));
    assert!(rt; answers(&mut state, 0, Call::CompleteAdding, ("done", 0)));
    assert!(rt; answers(&mut state, 0, Call::CompleteAdding, ("done", 0)));
    assert!(rt; answers(&mut state, 0, Call::Add(6), ("closed", 6)));
    assert!(rt; answers(&mut state, 0, Call::Completed, ("no", 0)));
    assert!(rt; answers(&mut state, 0, Call::Take, ("item", 4)));
    assert!(rt; answers(&mut state, 0, Call::Take, ("ended", 0)));
    assert!(rt; answers(&mut state, 0, Call::Completed, ("yes", 0)));
    Ok(())
}

#[test]
fn the_end_of_adding_is_asked_for(rt: HostRuntime) -> Result<(), Fail> {
    let mut state = BlockingState::new(rt.alloc(), Store::Fifo, None, 1)?;
    assert!(rt; answers(&mut state, 0, Call::AddingCompleted, ("no", 0)));
    assert!(rt; answers(&mut state, 0, Call::Take, ("empty", 0)));
    assert!(rt; answers(&mut state, 0, Call::CompleteAdding, ("done", 0)));
    assert!(rt; answers(&mut state, 0, Call::AddingCompleted, ("yes", 0)));
    Ok(())
}

/// Three adds, a snapshot and the takes that follow.
fn serves(rt: &HostRuntime, store: Store, bound: Option<u32>, taken: [u64; 3]) -> Result<bool, Fail>
    requires { ForSome bound (λ n. (0 < n) × (n ≤ 65536)) }
{
    let mut state = BlockingState::new(rt.alloc(), store, bound, 1)?;
    Ok(
        answers(&mut state, 0, Call::Add(1), ("done", 0))
            && answers(&mut state, 0, Call::Add(2), ("done", 0))
            && answers(&mut state, 0, Call::Add(3), ("done", 0))
            && shows(&mut state, &[1, 2, 3])
            && answers(&mut state, 0, Call::Count, ("count", 3))
            && answers(&mut state, 0, Call::Take, ("item", taken[0]))
            && answers(&mut state, 0, Call::Take, ("item", taken[1]))
            && answers(&mut state, 0, Call::Take, ("item", taken[2]))
            && answers(&mut state, 0, Call::Take, ("empty", 0)),
    )
}

#[test]
fn each_store_has_its_order(rt: HostRuntime) -> Result<(), Fail> {
    for bound in [None, Some(3)] {
        assert!(rt; serves(&rt, Store::Fifo, bound, [1, 2, 3])?);
        assert!(rt; serves(&rt, Store::Lifo, bound, [3, 2, 1])?);
        assert!(rt; serves(&rt, Store::Bag, bound, [3, 2, 1])?);
    }
    Ok(())
}

#[test]
fn a_bag_gives_its_own_last_item_or_the_first_of_the_least_list(
    rt: HostRuntime,
) -> Result<(), Fail> {
    let mut state = BlockingState::new(rt.alloc(), Store::Bag, Some(4), 3)?;
    assert!(rt; answers(&mut state, 2, Call::Add(20), ("done", 0)));
    assert!(rt; answers(&mut state, 1, Call::Add(10), ("done", 0)));
    assert!(rt; answers(&mut state, 1, Call::Add(11), ("done", 0)));
    assert!(rt; answers(&mut state, 2, Call::Add(21), ("done", 0)));
    assert!(rt; answers(&mut state, 0, Call::Add(1), ("full", 1)));
    assert!(rt; shows(&mut state, &[10, 11, 20, 21]));
    assert!(rt; answers(&mut state, 2, Call::Take, ("item", 21)));
    assert!(rt; answers(&mut state, 0, Call::Take, ("item", 10)));
    assert!(rt; answers(&mut state, 0, Call::Take, ("item", 11)));
    assert!(rt; answers(&mut state, 0, Call::Take, ("item", 20)));
    assert!(rt; answers(&mut state, 0, Call::Take, ("empty", 0)));
    Ok(())
}

#[test]
fn the_largest_collection_is_made(rt: HostRuntime) -> Result<(), Fail> {
    let mut state = BlockingState::new(rt.alloc(), Store::Lifo, Some(65_536), 64)?;
    assert!(rt; answers(&mut state, 63, Call::Add(1), ("done", 0)));
    Ok(())
}
