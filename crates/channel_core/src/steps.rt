// One call of a channel, over any store of items.
ghost use Rattle.std.specs.Prelude.{◌≡◌, ℕ, ◌+◌, ◌^◌, ◌<◌, ◌≤◌, true, Some, IfOk, IfErr, OnOk, OnErr, slice_index};
ghost use Rattle.ho_model.specs.Channel as channel;
ghost use Rattle.ho_model.specs.Tallies.{no_tally};
ghost use Rattle.channel_core.specs.Marks.{call_mark, reply_mark};
ghost use Rattle.channel_core.specs.Store.{HasRoom};
ghost use Rattle.channel_core.specs.Fits.{fits};
ghost use Rattle.channel_core.specs.Rows.{channel_of, kind_of, IsSameKind, BeginsRise, wants_memory};

use crate::calls::{ChannelCall, ChannelReply};
use crate::rows::{Core, Tried};
use crate::store::ItemStore;
use ho_base::{Marked, Unpaid};

impl<T: Marked, S: ItemStore<T>> Core<T, S> {
    /// Answers a call by the first row of the channel's table that holds, or hands it back for want
    /// of memory.
    pub fn step(
        &mut self,
        caller: u32,
        call: ChannelCall<T>,
    ) -> Result<ChannelReply<T>, Unpaid<ChannelCall<T>>>
        requires caller { caller < 64 }
        requires few { slice_index self.old.begins caller < 2 ^ 60 }
        requires room { HasRoom (S.capacity self.old.store) }
        requires arrivals { S.arrivals self.old.store < 2 ^ 60 }
        ensures ok { IfOk result
            (λ reply. channel.channel_answer (kind_of S.capacity S.priority self.old)
            (channel_of T.mark S.items self.old) caller (call_mark T.mark call)
            ≡ Some (reply_mark T.mark reply, channel_of T.mark S.items self.new)) }
        ensures fits { IfOk result (λ reply. fits no_tally call reply) }
        ensures begins { OnOk result (BeginsRise self.old.begins self.new.begins) }
        ensures err { OnErr result
            (channel_of T.mark S.items self.new ≡ channel_of T.mark S.items self.old) }
        ensures back { IfErr result (λ unpaid. unpaid.back ≡ call) }
        ensures wanted { OnErr result
            (wants_memory (S.capacity self.old.store) (call_mark T.mark call) ≡ true) }
        ensures kind { IsSameKind S.capacity self.old self.new }
        ensures arrivals { S.arrivals self.new.store ≤ S.arrivals self.old.store + 1 }
        ensures unpaid { OnErr result (S.arrivals self.new.store ≤ S.arrivals self.old.store) }
    {
        match call {
            ChannelCall::Write(item) => match self.write(item) {
                Tried::Answer(reply) => Ok(reply),
                Tried::Wait(item) => Ok(ChannelReply::Full(item)),
                Tried::NoMemory(back) => Err(Unpaid {
                    back: ChannelCall::Write(back),
                }),
            },
            ChannelCall::Read => match self.read() {
                Tried::Answer(reply) => Ok(reply),
                Tried::Wait(_) => Ok(ChannelReply::Empty),
                Tried::NoMemory(_) => unreachable!(),
            },
            ChannelCall::Peek => Ok(self.peek()),
            ChannelCall::Count => Ok(ChannelReply::Count(self.store.len() as u64)),
            ChannelCall::BeginWrite(item) => match self.begin_write(caller, item) {
                Ok(reply) => Ok(reply),
                Err(item) => Err(Unpaid {
                    back: ChannelCall::BeginWrite(item),
                }),
            },
            ChannelCall::BeginRead => match self.begin_read(caller) {
                Ok(reply) => Ok(reply),
                Err(_) => Err(Unpaid {
                    back: ChannelCall::BeginRead,
                }),
            },
            ChannelCall::BeginLookWrite => match self.begin_look_for_room(caller) {
                Ok(reply) => Ok(reply),
                Err(_) => Err(Unpaid {
                    back: ChannelCall::BeginLookWrite,
                }),
            },
            ChannelCall::BeginLookRead => match self.begin_look_for_item(caller) {
                Ok(reply) => Ok(reply),
                Err(_) => Err(Unpaid {
                    back: ChannelCall::BeginLookRead,
                }),
            },
            ChannelCall::Poll(number) => Ok(self.poll(caller, number)),
            ChannelCall::Cancel(number) => Ok(self.cancel(caller, number)),
            ChannelCall::Complete(fault) => Ok(ChannelReply::Flag(self.complete(fault))),
            ChannelCall::Completed => Ok(ChannelReply::Flag(self.is_completed())),
        }
    }
}
