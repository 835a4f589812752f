// A bag that is played.
ghost use Rattle.std.specs.Prelude.{◌≡◌, ◌<◌, IfOk};
ghost use Rattle.ho_base.specs.Marks.{number_priority};
ghost use Rattle.ho_model.specs.Bag.{added, taken_from, bag_step};
ghost use Rattle.ho_model.specs.Entries as entries;
ghost use Rattle.ho_model.specs.Objects.{BagState, stepped};
ghost use Rattle.ho_model.specs.Written.{mark_of, call_of, giving, entry_of};
ghost use Rattle.ho_model.specs.Judging.{Accepts};

use super::caller_lines::CallerLines;
use super::replies::same_reply;
use crate::histories::{Call, Entry, Items, Reply};
use crate::objects::Object;
use ho_base::NoMemory;
use std::alloc::Global;

/// How many items a list can have.
const MOST: usize = 16_383;

/// Whether a bag with these lists accepts an entry.
#[tactic(auto, using(crate::proofs::Judging::accepts_of_bag))]
pub(super) fn accepts(
    alloc: Global,
    object: &Object,
    lists: &mut CallerLines,
    entry: &Entry,
) -> Result<bool, NoMemory>
    requires { entry.now.caller < 64 }
    ensures { IfOk result (λ accepted. Accepts (stepped number_priority object.now (BagState lists.old)
        (entry_of object.now entry.now)) (BagState lists.new) accepted) }
{
    match object {
        Object::Bag => step(alloc, lists, entry.caller, entry.call, &entry.reply),
        _ => Ok(false),
    }
}

/// Whether a bag makes this reply to a call.
#[tactic(auto, using(crate::proofs::Judging::accepts_the_same))]
fn step(
    alloc: Global,
    lists: &mut CallerLines,
    caller: u32,
    call: Call,
    reply: &Reply,
) -> Result<bool, NoMemory>
    requires { caller < 64 }
    ensures { IfOk result (λ accepted. Accepts (bag_step lists.old caller (call_of call) (giving reply.now))
        lists.new accepted) }
{
    match call {
        Call::Add(item) => Ok(same_reply(&add(lists, caller, item)?, reply)),
        Call::Take => take(lists, caller, reply),
        Call::Count => Ok(same_reply(&Reply::Count(lists.count()?), reply)),
        Call::Snap => {
            let numbers = Items::from_vec(lists.numbers(alloc)?);
            Ok(same_reply(&Reply::Numbers(numbers), reply))
        }
        _ => Ok(false),
    }
}

/// An add to the caller's own list.
fn add(lists: &mut CallerLines, caller: u32, item: u64) -> Result<Reply, NoMemory>
    requires { caller < 64 }
    ensures { IfOk result (λ said. added lists.old caller (mark_of item) ≡ (giving said, lists.new)) }
{
    if lists.len_of(caller) >= MOST {
        return Ok(Reply::Full);
    }
    lists.push(caller, item)?;
    Ok(Reply::Done)
}

/// Whether a take can have this reply, which says what it takes.
fn take(lists: &mut CallerLines, caller: u32, reply: &Reply) -> Result<bool, NoMemory>
    ensures { IfOk result (λ accepted. Accepts (bag_step lists.old caller entries.Take (giving reply.now))
        lists.new accepted) }
{
    match reply {
        Reply::ItemFrom(item, from) => Ok(take_from(lists, caller as usize, *item, *from as usize)),
        Reply::Empty => Ok(lists.count()? == 0),
        _ => Ok(false),
    }
}

/// Whether a take can take an item from the list at a place, which may be the taker's own.
fn take_from(lists: &mut CallerLines, caller: usize, item: u64, from: usize) -> bool
    ensures { Accepts (taken_from lists.old caller (mark_of item) from) lists.new result }
{
    if lists.has_item_at(caller) {
        if from != caller || !lists.ends_with(caller, item) {
            return false;
        }
        lists.take_last(caller);
        return true;
    }
    if !lists.has_item_at(from) || !lists.begins_with(from, item) {
        return false;
    }
    lists.take_first(from);
    true
}
