// A caller of a collection.
ghost use Rattle.std.specs.Prelude.{◌≡◌};

use crate::collection::BlockingCollection;
use crate::singles::{AddReply, TakeReply};
use crate::{singles, waits};
use blocking_core::{BlockingCall, BlockingReply};
use cancel_flag::CancelToken;
use ho_base::{Item, NoMemory, Receipt, Unpaid};
use ho_model::Items;
use pauses::{Tries, Want};
use std::marker::Model;
use std::sync::Wait;
use turn_lock::Pass;

/// A caller's right to a collection: the collection with a pass of it. Contracts see of it its pass.
///
/// Each call waits for its turn, and `add` and `take` alone wait for more. A caller that has made 2^48
/// calls does not return.
#[derive(Drop)]
pub struct Member<'c, T: Item> {
    collection: &'c BlockingCollection<T>,
    pass: Pass,
}

impl<'c, T: Item> Model for Member<'c, T> {
    ghost use Rattle.std.specs.Prelude.{◌≡◌};
    ghost use Rattle.turn_lock.specs.Passes.{LockPass};

    ghost Value = { LockPass };

    ghost view = { λ m. m.pass };

    ghost invariant = { λ m. m.pass.table ≡ m.collection.now };
}

impl<'c, T: Item> Member<'c, T> {
    ghost use Rattle.ho_model.specs.declared.marks.CallMark.TheVariants.{CompleteAdding, AddingCompleted, Completed, Count};
    ghost use Rattle.ho_model.specs.declared.marks.ReplyMark.TheVariants.{Done, Flag, Counted};
    ghost use Rattle.passes.specs.Calls.{IsSamePass};
    ghost use Rattle.turn_lock.specs.Calls.{Makes};
    ghost use Rattle.blocking_collection.specs.Singles.{OneCall, OneAdd, OneTake, OneSnap};
    ghost use Rattle.blocking_collection.specs.Waits.{Added, Taken};

    /// A member of this collection by this pass.
    pub fn new(collection: &'c BlockingCollection<T>, pass: Pass) -> Member<'c, T>
        requires { pass.table ≡ collection.now }
        ensures { result ≡ pass }
    {
        Member { collection, pass }
    }

    /// The pass, which may then serve another member.
    pub fn into_pass(self) -> Pass
        ensures { result ≡ self.entry }
    {
        let Member {
            collection: _,
            pass,
        } = self;
        pass
    }

    /// Adds an item, if that needs no wait (`TryAdd`). For want of memory there is no entry and the
    /// item comes back; with a bound, a first-in or last-in collection never wants any.
    pub fn try_add<R: Wait>(&mut self, rt: &R, item: T) -> Result<AddReply<T>, Unpaid<T>>
        ensures pass { IsSamePass self.old self.new }
        ensures added { OneAdd T.priority_of T.mark self.old self.new item result }
    {
        singles::try_add(rt, self.collection, &mut self.pass, item)
    }

    /// Adds an item, and tries again while there is no room (`Add`). The token is looked at after
    /// each try that found none.
    ///
    /// The own entries are adds answered full, any number of them, and then the one that was done or
    /// found the end of adding. Each of these calls is counted. For want of memory the former stand, and
    /// the item comes back; with a bound, a first-in or last-in collection never wants any. A token that
    /// is set does not refuse an item for which there is room.
    pub fn add<R: Wait>(
        &mut self,
        rt: &R,
        item: T,
        token: &mut CancelToken,
    ) -> Result<AddReply<T>, Unpaid<T>>
        ensures word { token.new.word ≡ token.old.word }
        ensures added { Added T.priority_of T.mark token.old token.new self.old self.new item result }
    {
        let collection = self.collection;
        let mut tries = Tries::new(&collection.bells, self.pass.caller(), Want::Room);
        waits::add(rt, collection, &mut self.pass, item, token, &mut tries)
    }

    /// Takes an item, if there is one (`TryTake`). Takes no memory.
    pub fn try_take<R: Wait>(&mut self, rt: &R) -> TakeReply<T>
        ensures pass { IsSamePass self.old self.new }
        ensures taken { OneTake T.priority_of T.mark self.old self.new result }
    {
        singles::try_take(rt, self.collection, &mut self.pass)
    }

    /// Takes an item, and tries again while there is none (`Take`). The token is looked at after each
    /// try that found none. Takes no memory.
    ///
    /// The own entries are takes answered empty, any number of them, and then the one that took an
    /// item or found that none can come. Each of these calls is counted. A token that is set does not
    /// refuse an item that is there.
    pub fn take<R: Wait>(&mut self, rt: &R, token: &mut CancelToken) -> TakeReply<T>
        ensures word { token.new.word ≡ token.old.word }
        ensures taken { Taken T.priority_of T.mark token.old token.new self.old self.new result }
    {
        let collection = self.collection;
        let mut tries = Tries::new(&collection.bells, self.pass.caller(), Want::Item);
        waits::take(rt, collection, &mut self.pass, token, &mut tries)
    }

    /// Ends adding (`CompleteAdding`). It may be called again.
    pub fn complete_adding<R: Wait>(&mut self, rt: &R)
        ensures pass { IsSamePass self.old self.new }
        ensures completed { Makes T.priority_of self.old CompleteAdding Done self.new }
    {
        match self
            .collection
            .call(rt, &mut self.pass, BlockingCall::CompleteAdding)
        {
            Ok((BlockingReply::Done, _)) => {}
            _ => unreachable!(),
        }
    }

    /// Whether adding has ended (`IsAddingCompleted`).
    pub fn is_adding_completed<R: Wait>(&mut self, rt: &R) -> bool
        ensures pass { IsSamePass self.old self.new }
        ensures told { Makes T.priority_of self.old AddingCompleted (Flag result) self.new }
    {
        singles::is_adding_completed(rt, self.collection, &mut self.pass)
    }

    /// Whether adding has ended and no item is left (`IsCompleted`).
    pub fn is_completed<R: Wait>(&mut self, rt: &R) -> bool
        ensures pass { IsSamePass self.old self.new }
        ensures told { Makes T.priority_of self.old Completed (Flag result) self.new }
    {
        match self
            .collection
            .call(rt, &mut self.pass, BlockingCall::Completed)
        {
            Ok((BlockingReply::Flag(flag), _)) => flag,
            _ => unreachable!(),
        }
    }

    /// How many items there are (`Count`).
    pub fn count<R: Wait>(&mut self, rt: &R) -> u64
        ensures pass { IsSamePass self.old self.new }
        ensures counted { Makes T.priority_of self.old Count (Counted result) self.new }
    {
        match self
            .collection
            .call(rt, &mut self.pass, BlockingCall::Count)
        {
            Ok((BlockingReply::Count(count), _)) => count,
            _ => unreachable!(),
        }
    }

    /// The numbers of all items, from the oldest, or the lists of a bag in the order of their callers
    /// (`ToArray`). For want of memory there is no entry.
    pub fn to_vec<R: Wait>(&mut self, rt: &R) -> Result<Items, NoMemory>
        ensures pass { IsSamePass self.old self.new }
        ensures shown { OneSnap T.priority_of self.old self.new result }
    {
        match self.collection.call(rt, &mut self.pass, BlockingCall::Snap) {
            Ok((BlockingReply::Numbers(numbers), _)) => Ok(numbers),
            Ok(_) => unreachable!(),
            Err(_) => Err(NoMemory),
        }
    }

    /// Makes any single call. See `BlockingCollection::call`.
    pub fn call<R: Wait>(
        &mut self,
        rt: &R,
        call: BlockingCall<T>,
    ) -> Result<(BlockingReply<T>, Receipt), Unpaid<BlockingCall<T>>>
        ensures pass { IsSamePass self.old self.new }
        ensures called { OneCall T.priority_of T.mark self.old self.new call result }
    {
        self.collection.call(rt, &mut self.pass, call)
    }
}
