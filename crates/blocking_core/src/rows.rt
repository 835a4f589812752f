// The rows of a blocking collection's table.
ghost use Rattle.std.specs.Prelude.{◌≡◌, ◌+◌, ◌^◌, ◌<◌, ◌≤◌, true, Some, IfOk, IfErr, OnErr};
ghost use Rattle.ho_model.specs.Bag.{item_count};
ghost use Rattle.ho_model.specs.Blocking as blocking;
ghost use Rattle.ho_model.specs.Tallies.{no_tally};
ghost use Rattle.blocking_core.specs.Calls.{call_mark, reply_mark, AddFits, TakeFits, fits};
ghost use Rattle.blocking_core.specs.Stores.{lists_in, store_of, bound_of};
ghost use Rattle.blocking_core.specs.Rows.{adds_may_want, wants_memory, IsSameKind, blocking_of};

use crate::calls::{BlockingCall, BlockingReply};
use crate::stored::Stored;
use ho_base::{Marked, Unpaid};
use ho_model::Items;
use std::alloc::Global;

/// A blocking collection's items, and whether adding has ended.
#[derive(Drop)]
pub struct Rows<T: Marked> {
    pub stored: Stored<T>,
    pub closed: bool,
    pub alloc: Global,
}

impl<T: Marked> Rows<T> {
    /// Answers a call by the first case of the table that holds, or hands it back for want of memory.
    pub fn step(
        &mut self,
        caller: u32,
        call: BlockingCall<T>,
    ) -> Result<BlockingReply<T>, Unpaid<BlockingCall<T>>>
        requires caller { caller < 64 }
        requires few { item_count (lists_in self.old.stored) < 2 ^ 60 }
        ensures ok { IfOk result (λ reply. blocking.blocking_answer (store_of self.old.stored) (bound_of self.old.stored)
            (blocking_of self.old) caller (call_mark T.mark call) ≡ Some (reply_mark T.mark reply, blocking_of self.new)) }
        ensures fits { IfOk result (λ reply. fits no_tally call reply) }
        ensures kind { IsSameKind self.old.stored self.new.stored }
        ensures more { item_count (lists_in self.new.stored) ≤ item_count (lists_in self.old.stored) + 1 }
        ensures back { IfErr result (λ unpaid. unpaid.back ≡ call) }
        ensures err { OnErr result (blocking_of self.new ≡ blocking_of self.old) }
        ensures wanted { OnErr result (wants_memory (store_of self.old.stored) (bound_of self.old.stored) (call_mark T.mark call) ≡ true) }
    {
        match call {
            BlockingCall::Add(item) => match self.add(caller, item) {
                Ok(reply) => Ok(reply),
                Err(back) => Err(Unpaid {
                    back: BlockingCall::Add(back),
                }),
            },
            BlockingCall::Take => Ok(self.take(caller)),
            BlockingCall::CompleteAdding => {
                self.closed = true;
                Ok(BlockingReply::Done)
            }
            BlockingCall::AddingCompleted => Ok(BlockingReply::Flag(self.closed)),
            BlockingCall::Completed => Ok(BlockingReply::Flag(self.is_completed())),
            BlockingCall::Count => Ok(BlockingReply::Count(self.stored.count())),
            BlockingCall::Snap => match self.stored.numbers(self.alloc) {
                Ok(numbers) => Ok(BlockingReply::Numbers(Items::from_vec(numbers))),
                Err(_) => Err(Unpaid {
                    back: BlockingCall::Snap,
                }),
            },
        }
    }

    /// An add. The end of adding is told before a want of room.
    fn add(&mut self, caller: u32, item: T) -> Result<BlockingReply<T>, T>
        requires caller { caller < 64 }
        requires few { item_count (lists_in self.old.stored) < 2 ^ 60 }
        ensures ok { IfOk result (λ reply. blocking.added (store_of self.old.stored) (bound_of self.old.stored)
            (blocking_of self.old) caller (T.mark item) ≡ (reply_mark T.mark reply, blocking_of self.new)) }
        ensures fits { IfOk result (λ reply. AddFits item reply) }
        ensures kind { IsSameKind self.old.stored self.new.stored }
        ensures more { item_count (lists_in self.new.stored) ≤ item_count (lists_in self.old.stored) + 1 }
        ensures err { IfErr result (λ back. (back ≡ item) × (blocking_of self.new ≡ blocking_of self.old)
            × (adds_may_want (store_of self.old.stored) (bound_of self.old.stored) ≡ true)) }
    {
        if self.closed {
            return Ok(BlockingReply::Closed(item));
        }
        if self.stored.is_full() {
            return Ok(BlockingReply::Full(item));
        }
        self.stored.push(caller, item)?;
        Ok(BlockingReply::Done)
    }

    /// A take.
    fn take(&mut self, caller: u32) -> BlockingReply<T>
        requires { caller < 64 }
        ensures taken { blocking.taken (store_of self.old.stored) (blocking_of self.old) caller
            ≡ (reply_mark T.mark result, blocking_of self.new) }
        ensures fits { TakeFits result }
        ensures kind { IsSameKind self.old.stored self.new.stored }
        ensures fewer { item_count (lists_in self.new.stored) ≤ item_count (lists_in self.old.stored) }
    {
        if self.stored.count() > 0 {
            return BlockingReply::Item(self.stored.take(caller));
        }
        if self.closed {
            BlockingReply::Ended
        } else {
            BlockingReply::Empty
        }
    }

    /// Whether adding has ended and there is no item.
    fn is_completed(&self) -> bool
        ensures { result ≡ blocking.is_completed (blocking_of self.now) }
    {
        self.closed && self.stored.count() == 0
    }
}
