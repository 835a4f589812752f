// A blocking collection that is played.
ghost use Rattle.std.specs.Prelude.{◌≡◌, ◌<◌, false, Some, None, IfOk, position, unwrap_or};
ghost use Rattle.ho_base.specs.Marks.{number_priority};
ghost use Rattle.ho_model.specs.Queue.{has_item};
ghost use Rattle.ho_model.specs.Blocking as blocking;
ghost use Rattle.ho_model.specs.Objects.{BlockingState, stepped};
ghost use Rattle.ho_model.specs.Written.{mark_of, call_of, giving, entry_of};
ghost use Rattle.ho_model.specs.Judging.{Accepts, IsAnswer};

use super::caller_lines::CallerLines;
use super::replies::agrees;
use crate::histories::{Call, Entry, Items, Reply};
use crate::objects::{Object, Store};
use ho_base::NoMemory;
use std::alloc::Global;
use std::marker::Model;

/// A list for each caller, and whether the collection is complete for adding. Contracts see the
/// collection.
#[derive(Drop)]
pub(crate) struct Collection {
    lines: CallerLines,
    closed: bool,
}

impl Model for Collection {
    ghost use Rattle.ho_model.specs.Blocking.{Blocking};

    ghost Value = { Blocking };

    ghost view = { λ c. record { lists = c.lines; closed = c.closed } };
}

/// Whether a collection in this state accepts an entry.
#[tactic(auto, using(crate::proofs::Judging::accepts_of_blocking))]
pub(super) fn accepts(
    alloc: Global,
    object: &Object,
    state: &mut Collection,
    entry: &Entry,
) -> Result<bool, NoMemory>
    requires { entry.now.caller < 64 }
    ensures { IfOk result (λ accepted. Accepts (stepped number_priority object.now (BlockingState state.old)
        (entry_of object.now entry.now)) (BlockingState state.new) accepted) }
{
    let Object::Blocking { store, bound } = object else {
        return Ok(false);
    };
    let said = state.answer(alloc, *store, *bound, entry.caller, entry.call)?;
    Ok(agrees(&said, &entry.reply))
}

impl Collection {
    /// A collection without items.
    pub(crate) fn new(alloc: Global) -> Result<Collection, NoMemory>
        ensures { IfOk result (λ c. c ≡ blocking.empty_blocking) }
    {
        Ok(Collection {
            lines: CallerLines::new(alloc)?,
            closed: false,
        })
    }

    /// What the collection answers, if it has the call.
    fn answer(
        &mut self,
        alloc: Global,
        store: Store,
        bound: Option<u32>,
        caller: u32,
        call: Call,
    ) -> Result<Option<Reply>, NoMemory>
        requires { caller < 64 }
        ensures { IfOk result (λ said. IsAnswer false
            (blocking.blocking_answer store bound self.old caller (call_of call)) self.new said) }
    {
        match call {
            Call::Add(item) => Ok(Some(self.add(store, bound, caller, item)?)),
            Call::Take => self.take(store, caller),
            Call::CompleteAdding => {
                self.closed = true;
                Ok(Some(Reply::Done))
            }
            Call::AddingCompleted => Ok(Some(Reply::Flag(self.closed))),
            Call::Completed => {
                let count = self.lines.count()?;
                Ok(Some(Reply::Flag(self.closed && count == 0)))
            }
            Call::Count => Ok(Some(Reply::Count(self.lines.count()?))),
            Call::Snap => Ok(Some(Reply::Numbers(Items::from_vec(self.lines.numbers(alloc)?)))),
            _ => Ok(None),
        }
    }

    /// An add. The end of adding is told before a want of room.
    fn add(
        &mut self,
        store: Store,
        bound: Option<u32>,
        caller: u32,
        item: u64,
    ) -> Result<Reply, NoMemory>
        requires { caller < 64 }
        ensures { IfOk result (λ said. blocking.added store bound self.old caller (mark_of item)
            ≡ (giving said, self.new)) }
    {
        if self.closed {
            return Ok(Reply::Closed);
        }
        if self.is_at_bound(bound)? {
            return Ok(Reply::Full);
        }
        self.lines.push(list_for(store, caller), item)?;
        Ok(Reply::Done)
    }

    /// Whether there are as many items as the bound.
    fn is_at_bound(&self, bound: Option<u32>) -> Result<bool, NoMemory>
        ensures { IfOk result (λ full. full ≡ blocking.at_bound bound self.now.lists) }
    {
        match bound {
            None => Ok(false),
            Some(bound) => Ok(bound as u64 <= self.lines.count()?),
        }
    }

    /// A take.
    fn take(&mut self, store: Store, caller: u32) -> Result<Option<Reply>, NoMemory>
        ensures { IfOk result (λ said. IsAnswer false (Some (blocking.taken store self.old caller)) self.new said) }
    {
        if self.lines.count()? == 0 {
            return Ok(Some(if self.closed {
                Reply::Ended
            } else {
                Reply::Empty
            }));
        }
        Ok(self.some_item(store, caller))
    }

    /// An item of a collection that has one.
    fn some_item(&mut self, store: Store, caller: u32) -> Option<Reply>
        ensures { IsAnswer false (Some (blocking.some_item store self.old caller)) self.new result }
    {
        match store {
            Store::Fifo => self.first_of(0),
            Store::Lifo => self.last_of(0),
            Store::Bag => {
                if self.lines.has_item_at(caller as usize) {
                    return self.last_of(caller as usize);
                }
                let place = self.lines.place_with_item().unwrap_or(0);
                self.first_of(place)
            }
        }
    }

    /// The first item of a list. A list without items has none that can be written.
    fn first_of(&mut self, place: usize) -> Option<Reply>
        ensures { IsAnswer false (Some (blocking.first_of self.old place)) self.new result }
    {
        if !self.lines.has_item_at(place) {
            return None;
        }
        Some(Reply::Item(self.lines.take_first(place)))
    }

    /// The last item of a list.
    fn last_of(&mut self, place: usize) -> Option<Reply>
        ensures { IsAnswer false (Some (blocking.last_of self.old place)) self.new result }
    {
        if !self.lines.has_item_at(place) {
            return None;
        }
        Some(Reply::Item(self.lines.take_last(place)))
    }
}

/// The list that takes the items of a caller.
fn list_for(store: Store, caller: u32) -> u32
    ensures { result ≡ blocking.list_for store caller }
{
    match store {
        Store::Bag => caller,
        _ => 0,
    }
}
