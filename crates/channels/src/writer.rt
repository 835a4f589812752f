// A caller that writes.
ghost use Rattle.std.specs.Prelude.{◌≡◌, IfOk, IfErr};
ghost use Rattle.passes.specs.Calls.{IsSamePass};
ghost use Rattle.channels.specs.Calls.{Calls, Tries};

use crate::access::Access;
use crate::channel::Channel;
use crate::sides::Side;
use crate::tries::ChannelTry;
use channel_core::{ChannelCall, ChannelReply};
use ho_base::{Fault, Item, Receipt, Unpaid};
use pauses::Nap;
use std::marker::Model;
use std::sync::Wait;
use turn_lock::Pass;

/// What a write that does not wait for room comes to.
#[derive(Debug, PartialEq, Eq, Drop)]
pub enum WriteReply<T> {
    /// The item is in the buffer, or was handed to a read that waited.
    Done,
    /// The write went by a mode that drops, and this item was dropped.
    Dropped(T),
    /// There is no room. The item comes back.
    Full(T),
    /// The channel was completed with this fault. The item comes back.
    Refused(Option<Fault>, T),
}

/// A caller's right to write to a channel, after .NET's `ChannelWriter<T>`. Contracts see of it its
/// pass.
#[derive(Drop)]
pub struct Writer<'c, T: Item> {
    access: Access<'c, T>,
}

impl<'c, T: Item> Model for Writer<'c, T> {
    ghost use Rattle.turn_lock.specs.Passes.{LockPass};

    ghost Value = { LockPass };

    ghost view = { λ w. w.access };
}

impl<'c, T: Item> Writer<'c, T> {
    ghost use Rattle.ho_model.specs.declared.marks.CallMark.TheVariants.{Write, CompleteWith};
    ghost use Rattle.ho_model.specs.declared.marks.ReplyMark.TheVariants.{Flag};
    ghost use Rattle.channel_core.specs.Kept.{may_want};
    ghost use Rattle.channel_core.specs.Marks.{fault_number};
    ghost use Rattle.turn_lock.specs.Calls.{Makes, LacksMemory};
    ghost use Rattle.channels.specs.Replies.{write_mark, HandsBack};

    /// A writer of this channel by this pass.
    pub fn new(channel: &'c Channel<T>, pass: Pass) -> Writer<'c, T>
        requires { pass.table ≡ channel.now }
        ensures { result ≡ pass }
    {
        Writer {
            access: Access::new(channel, pass),
        }
    }

    /// The pass back, which knows all that the writer's calls have shown it.
    pub fn into_pass(self) -> Pass
        ensures { result ≡ self.entry }
    {
        let Writer { access } = self;
        access.into_pass()
    }

    /// Lends its access, to a layer that keeps the loan for as long as it keeps the writer:
    /// contracts do not say what the writer is after that.
    pub fn access(&mut self) -> &mut Access<'c, T>
        ensures { result.now ≡ self.old }
    {
        &mut self.access
    }

    /// Writes an item, if there is room or a read that waits for one (.NET's `TryWrite`).
    ///
    /// It waits for the turn, never for room: a full channel answers at once, by its mode. A
    /// channel without a capacity may want memory, and then makes no entry and hands the item back.
    /// A caller that has made 2^48 calls does not return.
    pub fn try_write<R: Wait>(&mut self, rt: &R, item: T) -> Result<WriteReply<T>, Unpaid<T>>
        ensures pass { IsSamePass self.old self.new }
        ensures written { IfOk result (λ reply. HandsBack item reply
            × Makes T.priority_of self.old (Write (T.mark item)) (write_mark T.mark reply) self.new) }
        ensures unpaid { IfErr result (λ unpaid. (unpaid.back ≡ item)
            × LacksMemory T.priority_of may_want self.old (Write (T.mark item)) self.new) }
    {
        match self.access.side_call(rt, ChannelCall::Write(item)) {
            Ok((ChannelReply::Done, _)) => Ok(WriteReply::Done),
            Ok((ChannelReply::Dropped(dropped), _)) => Ok(WriteReply::Dropped(dropped)),
            Ok((ChannelReply::Full(back), _)) => Ok(WriteReply::Full(back)),
            Ok((ChannelReply::Refused(fault, back), _)) => Ok(WriteReply::Refused(fault, back)),
            Ok(_) => unreachable!(),
            Err(
                Unpaid {
                    back: ChannelCall::Write(back),
                },
            ) => Err(Unpaid { back }),
            Err(_) => unreachable!(),
        }
    }

    /// Completes the channel, with a fault or without (.NET's `TryComplete`). True the first time,
    /// and then false.
    ///
    /// It waits for the turn alone, and takes no memory. A caller that has made 2^48 calls does not
    /// return.
    pub fn try_complete<R: Wait>(&mut self, rt: &R, fault: Option<Fault>) -> bool
        ensures pass { IsSamePass self.old self.new }
        ensures completed { Makes T.priority_of self.old (CompleteWith (fault_number fault))
            (Flag result) self.new }
    {
        match self.access.side_call(rt, ChannelCall::Complete(fault)) {
            Ok((ChannelReply::Flag(first), _)) => first,
            _ => unreachable!(),
        }
    }

    /// Waits for the turn, and makes any call of the channel. See `Channel::call`.
    pub fn call<R: Wait>(
        &mut self,
        rt: &R,
        call: ChannelCall<T>,
    ) -> Result<(ChannelReply<T>, Receipt), Unpaid<ChannelCall<T>>>
        ensures pass { IsSamePass self.old self.new }
        ensures called { Calls T.mark T.priority_of self.old self.new call result }
    {
        self.access.side_call(rt, call)
    }

    /// Tries once to get the turn, and makes any call of the channel where it came. It waits for
    /// nobody. See `Channel::try_call`.
    pub fn try_call(&mut self, call: ChannelCall<T>) -> ChannelTry<T>
        ensures pass { IsSamePass self.old self.new }
        ensures tried { Tries T.mark T.priority_of self.old self.new call result }
    {
        self.access.try_side_call(call)
    }
}

impl<'c, T: Item> Side<T> for Writer<'c, T> {
    ghost pass = { λ s. s };

    fn side_call<R: Wait>(
        &mut self,
        rt: &R,
        call: ChannelCall<T>,
    ) -> Result<(ChannelReply<T>, Receipt), Unpaid<ChannelCall<T>>>
        ensures same { IsSamePass self.old self.new }
        ensures called { Calls T.mark T.priority_of self.old self.new call result }
    {
        self.access.side_call(rt, call)
    }

    fn try_side_call(&mut self, call: ChannelCall<T>) -> ChannelTry<T>
        ensures same { IsSamePass self.old self.new }
        ensures tried { Tries T.mark T.priority_of self.old self.new call result }
    {
        self.access.try_side_call(call)
    }

    fn note(&self, receipt: Receipt) {
        self.access.note(receipt);
    }

    fn nap<R: Wait>(&self, rt: &R, nap: &mut Nap) {
        self.access.nap(rt, nap);
    }

    fn wake(&self, nap: &mut Nap) {
        self.access.wake(nap);
    }
}
