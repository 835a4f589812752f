// The worked rows of members and of the calls over several collections. What each answer leaves is
// proved; these tests show that the calls succeed.
use crate::{
    AddReply, AnyAdd, AnyTake, BlockingCollection, Member, TakeReply, add_any, take_any,
    try_add_any, try_take_any,
};
use blocking_core::{BlockingCall, BlockingReply};
use cancel_flag::cancel_pair;
use ho_base::Receipt;
use ho_model::Store;
use std::sync::Wait;
use std::test::Fail;

#[test]
fn adding_ends_and_what_was_added_is_taken(rt: HostRuntime) -> Result<(), Fail> {
    let (collection, pass) = BlockingCollection::new(rt.alloc(), Store::Fifo, Some(1), 1)?;
    let mut member = Member::new(&collection, pass);
    assert!(rt; matches!(member.try_add(&rt, 4u64), Ok(AddReply::Done)));
    assert!(rt; matches!(member.try_add(&rt, 5u64), Ok(AddReply::Full(5))));
    assert!(rt; !member.is_adding_completed(&rt));
    member.complete_adding(&rt);
    member.complete_adding(&rt);
    assert!(rt; member.is_adding_completed(&rt));
    assert!(rt; matches!(member.try_add(&rt, 6u64), Ok(AddReply::Closed(6))));
    assert!(rt; !member.is_completed(&rt));
    assert_eq!(rt; member.count(&rt), 1);
    assert!(rt; matches!(member.to_vec(&rt), Ok(items) if items.as_slice() == [4].as_slice()));
    assert_eq!(rt; member.try_take(&rt), TakeReply::Item(4));
    assert_eq!(rt; member.try_take(&rt), TakeReply::Ended);
    assert!(rt; member.is_completed(&rt));
    Ok(())
}

#[test]
fn any_call_is_made_by_its_name(rt: HostRuntime) -> Result<(), Fail> {
    let (collection, mut a) = BlockingCollection::new(rt.alloc(), Store::Bag, None, 2)?;
    let mut b = collection.split(&mut a);
    assert!(rt;
        matches!(
            collection.call(&rt, &mut a, BlockingCall::Add(7u64)),
            Ok((BlockingReply::Done, Receipt::Place { number: 0 }))
        )
    );
    assert!(rt;
        matches!(
            collection.call(&rt, &mut b, BlockingCall::Take),
            Ok((BlockingReply::Item(7), Receipt::Place { number: 1 }))
        )
    );
    collection.join(&mut a, b);
    let mut member = Member::new(&collection, a);
    assert!(rt;
        matches!(
            member.call(&rt, BlockingCall::Completed),
            Ok((BlockingReply::Flag(false), Receipt::Place { number: 2 }))
        )
    );
    assert!(rt; member.into_pass().is_whole());
    Ok(())
}

/// How many entries stand before that of a count.
fn place_of_count<R: Wait>(rt: &R, member: &mut Member<'_, u64>) -> Option<u64> {
    match member.call(rt, BlockingCall::Count) {
        Ok((BlockingReply::Count(_), Receipt::Place { number })) => Some(number),
        _ => None,
    }
}

#[test]
fn a_token_that_is_set_ends_a_wait_alone(rt: HostRuntime) -> Result<(), Fail> {
    let (collection, pass) = BlockingCollection::new(rt.alloc(), Store::Fifo, Some(1), 1)?;
    let mut member = Member::new(&collection, pass);
    let (mut source, mut token) = cancel_pair(rt.alloc())?;
    source.cancel(&rt);
    assert!(rt; matches!(member.add(&rt, 1u64, &mut token), Ok(AddReply::Done)));
    assert!(rt;
        matches!(
            member.add(&rt, 2u64, &mut token),
            Ok(AddReply::Cancelled(2))
        )
    );
    // an add that was done, one that found the collection full, and no more
    assert_eq!(rt; place_of_count(&rt, &mut member), Some(2));
    assert_eq!(rt; member.take(&rt, &mut token), TakeReply::Item(1));
    assert_eq!(rt; member.take(&rt, &mut token), TakeReply::Cancelled);
    // a take of an item, one that found none, and no more
    assert_eq!(rt; place_of_count(&rt, &mut member), Some(5));
    member.complete_adding(&rt);
    assert_eq!(rt; member.take(&rt, &mut token), TakeReply::Ended);
    assert!(rt; matches!(member.add(&rt, 3u64, &mut token), Ok(AddReply::Closed(3))));
    Ok(())
}

#[test]
fn calls_over_several_use_the_first_that_serves(rt: HostRuntime) -> Result<(), Fail> {
    let (a, mut pass_a) = BlockingCollection::new(rt.alloc(), Store::Fifo, Some(1), 2)?;
    let other = a.split(&mut pass_a);
    let (b, mut pass_b) = BlockingCollection::new(rt.alloc(), Store::Fifo, Some(1), 2)?;
    let last = b.split(&mut pass_b);
    let mut member = Member::new(&a, pass_a);
    assert!(rt; matches!(member.try_add(&rt, 1u64), Ok(AddReply::Done)));
    let mut passes = [member.into_pass(), pass_b];
    let collections = [a, b];
    assert!(rt;
        matches!(
            try_add_any(&rt, &collections, &mut passes, 7),
            Ok(AnyAdd::Index(1))
        )
    );
    assert!(rt;
        matches!(
            try_add_any(&rt, &collections, &mut passes, 8),
            Ok(AnyAdd::NoneUsed(8))
        )
    );
    assert_eq!(rt;
        try_take_any(&rt, &collections, &mut passes),
        AnyTake::Index(0, 1)
    );
    Member::new(&collections[0], other).complete_adding(&rt);
    assert!(rt;
        matches!(
            try_add_any(&rt, &collections, &mut passes, 9),
            Ok(AnyAdd::Closed(0, 9))
        )
    );
    assert_eq!(rt;
        try_take_any(&rt, &collections, &mut passes),
        AnyTake::Index(1, 7)
    );
    assert_eq!(rt;
        try_take_any(&rt, &collections, &mut passes),
        AnyTake::NoneUsed
    );
    Member::new(&collections[1], last).complete_adding(&rt);
    assert_eq!(rt;
        try_take_any(&rt, &collections, &mut passes),
        AnyTake::Ended
    );
    let (_source, mut token) = cancel_pair(rt.alloc())?;
    assert_eq!(rt;
        take_any(&rt, &collections, &mut passes, &mut token),
        AnyTake::Ended
    );
    Ok(())
}

#[test]
fn calls_over_several_end_by_a_token_that_is_set(rt: HostRuntime) -> Result<(), Fail> {
    let (a, pass_a) = BlockingCollection::new(rt.alloc(), Store::Fifo, Some(1), 1)?;
    let (b, pass_b) = BlockingCollection::new(rt.alloc(), Store::Lifo, Some(1), 1)?;
    let (mut source, mut token) = cancel_pair(rt.alloc())?;
    source.cancel(&rt);
    let mut passes = [pass_a, pass_b];
    let collections = [a, b];
    assert!(rt;
        matches!(
            add_any(&rt, &collections, &mut passes, 1u64, &mut token),
            Ok(AnyAdd::Index(0))
        )
    );
    assert!(rt;
        matches!(
            add_any(&rt, &collections, &mut passes, 2, &mut token),
            Ok(AnyAdd::Index(1))
        )
    );
    assert!(rt;
        matches!(
            add_any(&rt, &collections, &mut passes, 3, &mut token),
            Ok(AnyAdd::Cancelled(3))
        )
    );
    assert_eq!(rt;
        take_any(&rt, &collections, &mut passes, &mut token),
        AnyTake::Index(0, 1)
    );
    assert_eq!(rt;
        take_any(&rt, &collections, &mut passes, &mut token),
        AnyTake::Index(1, 2)
    );
    assert_eq!(rt;
        take_any(&rt, &collections, &mut passes, &mut token),
        AnyTake::Cancelled
    );
    Ok(())
}

#[test]
fn there_is_nothing_to_use_in_no_collection(rt: HostRuntime) -> Result<(), Fail> {
    let (mut source, mut token) = cancel_pair(rt.alloc())?;
    source.cancel(&rt);
    let none: [BlockingCollection<u64>; 0] = [];
    let mut passes: [turn_lock::Pass; 0] = [];
    assert!(rt;
        matches!(
            try_add_any(&rt, &none, &mut passes, 8u64),
            Ok(AnyAdd::NoCollection(8))
        )
    );
    assert!(rt;
        matches!(
            add_any(&rt, &none, &mut passes, 8u64, &mut token),
            Ok(AnyAdd::NoCollection(8))
        )
    );
    assert!(rt; matches!(try_take_any(&rt, &none, &mut passes), AnyTake::NoCollection));
    assert!(rt;
        matches!(
            take_any(&rt, &none, &mut passes, &mut token),
            AnyTake::NoCollection
        )
    );
    Ok(())
}
