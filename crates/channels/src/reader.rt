// A caller that reads.
ghost use Rattle.std.specs.Prelude.{◌≡◌};
ghost use Rattle.passes.specs.Calls.{IsSamePass};
ghost use Rattle.channels.specs.Calls.{Calls, Tries};

use crate::access::Access;
use crate::channel::Channel;
use crate::sides::Side;
use crate::tries::ChannelTry;
use channel_core::{ChannelCall, ChannelReply};
use ho_base::{Fault, Item, Receipt, Unpaid};
use pauses::Nap;
use std::marker::Model;
use std::sync::Wait;
use turn_lock::Pass;

/// What a read that does not wait for an item comes to.
#[derive(Debug, PartialEq, Eq, Drop)]
pub enum ReadReply<T> {
    Item(T),
    /// There is no item.
    Empty,
    /// The channel was completed with this fault, and has no item left.
    Closed(Option<Fault>),
}

/// A caller's right to read from a channel, after .NET's `ChannelReader<T>`. Contracts see of it
/// its pass.
#[derive(Drop)]
pub struct Reader<'c, T: Item> {
    access: Access<'c, T>,
}

impl<'c, T: Item> Model for Reader<'c, T> {
    ghost use Rattle.turn_lock.specs.Passes.{LockPass};

    ghost Value = { LockPass };

    ghost view = { λ r. r.access };
}

impl<'c, T: Item> Reader<'c, T> {
    ghost use Rattle.ho_model.specs.declared.marks.CallMark.TheVariants.{Read, Peek, Count, Completed};
    ghost use Rattle.ho_model.specs.declared.marks.ReplyMark.TheVariants.{Counted, Flag};
    ghost use Rattle.turn_lock.specs.Calls.{Makes};
    ghost use Rattle.channels.specs.Replies.{read_mark, peek_mark};

    /// A reader of this channel by this pass.
    pub fn new(channel: &'c Channel<T>, pass: Pass) -> Reader<'c, T>
        requires { pass.table ≡ channel.now }
        ensures { result ≡ pass }
    {
        Reader {
            access: Access::new(channel, pass),
        }
    }

    /// The pass back, which knows all that the reader's calls have shown it.
    pub fn into_pass(self) -> Pass
        ensures { result ≡ self.entry }
    {
        let Reader { access } = self;
        access.into_pass()
    }

    /// Lends its access, to a layer that keeps the loan for as long as it keeps the reader:
    /// contracts do not say what the reader is after that.
    pub fn access(&mut self) -> &mut Access<'c, T>
        ensures { result.now ≡ self.old }
    {
        &mut self.access
    }

    /// Reads an item, if there is one (.NET's `TryRead`).
    ///
    /// It waits for the turn, never for an item, and takes no memory. A caller that has made 2^48
    /// calls does not return.
    pub fn try_read<R: Wait>(&mut self, rt: &R) -> ReadReply<T>
        ensures pass { IsSamePass self.old self.new }
        ensures read { Makes T.priority_of self.old Read (read_mark T.mark result) self.new }
    {
        match self.access.side_call(rt, ChannelCall::Read) {
            Ok((ChannelReply::Item(item), _)) => ReadReply::Item(item),
            Ok((ChannelReply::Empty, _)) => ReadReply::Empty,
            Ok((ChannelReply::Closed(fault), _)) => ReadReply::Closed(fault),
            _ => unreachable!(),
        }
    }

    /// The number of the item that a read would take, if there is one (.NET's `TryPeek`).
    ///
    /// It waits for the turn, never for an item, and takes no memory. A caller that has made 2^48
    /// calls does not return.
    pub fn peek<R: Wait>(&mut self, rt: &R) -> Option<u64>
        ensures pass { IsSamePass self.old self.new }
        ensures peeked { Makes T.priority_of self.old Peek (peek_mark result) self.new }
    {
        match self.access.side_call(rt, ChannelCall::Peek) {
            Ok((ChannelReply::Shown(number), _)) => Some(number),
            Ok((ChannelReply::Empty, _)) => None,
            _ => unreachable!(),
        }
    }

    /// How many items the buffer has (.NET's `Count`).
    ///
    /// It waits for the turn alone, and takes no memory. A caller that has made 2^48 calls does not
    /// return.
    pub fn count<R: Wait>(&mut self, rt: &R) -> u64
        ensures pass { IsSamePass self.old self.new }
        ensures counted { Makes T.priority_of self.old Count (Counted result) self.new }
    {
        match self.access.side_call(rt, ChannelCall::Count) {
            Ok((ChannelReply::Count(count), _)) => count,
            _ => unreachable!(),
        }
    }

    /// Whether the channel was completed and has no item left (.NET's `Completion`).
    ///
    /// It waits for the turn alone, and takes no memory. A caller that has made 2^48 calls does not
    /// return.
    pub fn is_completed<R: Wait>(&mut self, rt: &R) -> bool
        ensures pass { IsSamePass self.old self.new }
        ensures told { Makes T.priority_of self.old Completed (Flag result) self.new }
    {
        match self.access.side_call(rt, ChannelCall::Completed) {
            Ok((ChannelReply::Flag(flag), _)) => flag,
            _ => unreachable!(),
        }
    }

    /// Waits for the turn, and makes any call of the channel. See `Channel::call`.
    pub fn call<R: Wait>(
        &mut self,
        rt: &R,
        call: ChannelCall<T>,
    ) -> Result<(ChannelReply<T>, Receipt), Unpaid<ChannelCall<T>>>
        ensures pass { IsSamePass self.old self.new }
        ensures called { Calls T.mark T.priority_of self.old self.new call result }
    {
        self.access.side_call(rt, call)
    }

    /// Tries once to get the turn, and makes any call of the channel where it came. It waits for
    /// nobody. See `Channel::try_call`.
    pub fn try_call(&mut self, call: ChannelCall<T>) -> ChannelTry<T>
        ensures pass { IsSamePass self.old self.new }
        ensures tried { Tries T.mark T.priority_of self.old self.new call result }
    {
        self.access.try_side_call(call)
    }
}

impl<'c, T: Item> Side<T> for Reader<'c, T> {
    ghost pass = { λ s. s };

    fn side_call<R: Wait>(
        &mut self,
        rt: &R,
        call: ChannelCall<T>,
    ) -> Result<(ChannelReply<T>, Receipt), Unpaid<ChannelCall<T>>>
        ensures same { IsSamePass self.old self.new }
        ensures called { Calls T.mark T.priority_of self.old self.new call result }
    {
        self.access.side_call(rt, call)
    }

    fn try_side_call(&mut self, call: ChannelCall<T>) -> ChannelTry<T>
        ensures same { IsSamePass self.old self.new }
        ensures tried { Tries T.mark T.priority_of self.old self.new call result }
    {
        self.access.try_side_call(call)
    }

    fn note(&self, receipt: Receipt) {
        self.access.note(receipt);
    }

    fn nap<R: Wait>(&self, rt: &R, nap: &mut Nap) {
        self.access.nap(rt, nap);
    }

    fn wake(&self, nap: &mut Nap) {
        self.access.wake(nap);
    }
}
