// Single calls of a collection by a pass, which members and the calls over several share.
ghost use Rattle.std.specs.Prelude.{◌≡◌};
ghost use Rattle.ho_model.specs.declared.marks.CallMark.TheVariants.{AddingCompleted};
ghost use Rattle.ho_model.specs.declared.marks.ReplyMark.TheVariants.{Flag};
ghost use Rattle.passes.specs.Calls.{IsSamePass};
ghost use Rattle.turn_lock.specs.Calls.{Makes};
ghost use Rattle.blocking_collection.specs.Singles.{OneAdd, OneTake};

use crate::collection::BlockingCollection;
use blocking_core::{BlockingCall, BlockingReply};
use ho_base::{Item, Unpaid};
use std::sync::Wait;
use turn_lock::Pass;

/// What an add comes to. An item that is not added comes back.
#[derive(Debug, PartialEq, Eq, Drop)]
pub enum AddReply<T> {
    /// The item was added.
    Done,
    /// There are as many items as the bound. Only `try_add` answers so.
    Full(T),
    /// Adding has ended.
    Closed(T),
    /// The token asked to stop while there was no room. Only `add` answers so.
    Cancelled(T),
}

/// What a take comes to.
#[derive(Debug, PartialEq, Eq, Drop)]
pub enum TakeReply<T> {
    /// The item that was taken.
    Item(T),
    /// There is no item, and one may come. Only `try_take` answers so.
    Empty,
    /// There is no item, and adding has ended.
    Ended,
    /// The token asked to stop while there was no item. Only `take` answers so.
    Cancelled,
}

/// One add, which does not wait for room.
pub(crate) fn try_add<T: Item, R: Wait>(
    rt: &R,
    collection: &BlockingCollection<T>,
    pass: &mut Pass,
    item: T,
) -> Result<AddReply<T>, Unpaid<T>>
    requires { pass.old.table ≡ collection.now }
    ensures pass { IsSamePass pass.old pass.new }
    ensures added { OneAdd T.priority_of T.mark pass.old pass.new item result }
{
    match collection.call(rt, pass, BlockingCall::Add(item)) {
        Ok((BlockingReply::Done, _)) => Ok(AddReply::Done),
        Ok((BlockingReply::Full(back), _)) => Ok(AddReply::Full(back)),
        Ok((BlockingReply::Closed(back), _)) => Ok(AddReply::Closed(back)),
        Ok(_) => unreachable!(),
        Err(
            Unpaid {
                back: BlockingCall::Add(back),
            },
        ) => Err(Unpaid { back }),
        Err(_) => unreachable!(),
    }
}

/// One take, which does not wait for an item.
pub(crate) fn try_take<T: Item, R: Wait>(
    rt: &R,
    collection: &BlockingCollection<T>,
    pass: &mut Pass,
) -> TakeReply<T>
    requires { pass.old.table ≡ collection.now }
    ensures pass { IsSamePass pass.old pass.new }
    ensures taken { OneTake T.priority_of T.mark pass.old pass.new result }
{
    match collection.call(rt, pass, BlockingCall::Take) {
        Ok((BlockingReply::Item(item), _)) => TakeReply::Item(item),
        Ok((BlockingReply::Empty, _)) => TakeReply::Empty,
        Ok((BlockingReply::Ended, _)) => TakeReply::Ended,
        _ => unreachable!(),
    }
}

/// Whether adding has ended.
pub(crate) fn is_adding_completed<T: Item, R: Wait>(
    rt: &R,
    collection: &BlockingCollection<T>,
    pass: &mut Pass,
) -> bool
    requires { pass.old.table ≡ collection.now }
    ensures pass { IsSamePass pass.old pass.new }
    ensures asked { Makes T.priority_of pass.old AddingCompleted (Flag result) pass.new }
{
    match collection.call(rt, pass, BlockingCall::AddingCompleted) {
        Ok((BlockingReply::Flag(flag), _)) => flag,
        _ => unreachable!(),
    }
}
