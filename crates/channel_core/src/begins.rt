// The begins, and what becomes of the waits that they leave.
ghost use Rattle.std.specs.Prelude.{◌≡◌, ℕ, ◌+◌, ◌^◌, ◌<◌, ◌≤◌, ◌++◌, ◌∷◌, [], None, IfOk, IfErr, OnOk, OnErr, slice_index, vec_len, vec_capacity};
ghost use Rattle.ho_model.specs.Channel as channel;
ghost use Rattle.channel_core.specs.Marks.{waits_mark, standing_mark, reply_mark};
ghost use Rattle.channel_core.specs.declared.calls.ChannelReply.TheVariants as reply;
ghost use Rattle.channel_core.specs.Store.{HasRoom};
ghost use Rattle.channel_core.specs.Fits.{BeginWriteFits, BeginReadFits, BeginLookFits, PollFits, CancelFits};
ghost use Rattle.channel_core.specs.Rows.{channel_of, kind_of, IsSameKind, begun};

use crate::calls::ChannelReply;
use crate::rows::{Core, Tried};
use crate::store::ItemStore;
use crate::waits::{Standing, Waiter, cancelled, fetched, find, is_waiting, withdraw};
use ho_base::Marked;
use std::alloc::AllocError;

impl<T: Marked, S: ItemStore<T>> Core<T, S> {
    /// A begin of a write. A place for the wait is taken first, so that a refusal changes nothing.
    pub(crate) fn begin_write(&mut self, caller: u32, item: T) -> Result<ChannelReply<T>, T>
        requires caller { caller < 64 }
        requires few { slice_index self.old.begins caller < 2 ^ 60 }
        requires room { HasRoom (S.capacity self.old.store) }
        requires arrivals { S.arrivals self.old.store < 2 ^ 60 }
        ensures ok { IfOk result
            (λ reply. channel.begin (channel_of T.mark S.items self.old) caller
            (channel.WantsRoom (T.mark item))
            (channel.written (kind_of S.capacity S.priority self.old)
            (channel_of T.mark S.items self.old) (T.mark item))
            ≡ (reply_mark T.mark reply, channel_of T.mark S.items self.new)) }
        ensures fits { IfOk result (λ reply. BeginWriteFits item reply) }
        ensures begins { OnOk result (self.new.begins ≡ begun self.old.begins caller) }
        ensures err { IfErr result
            (λ back. (back ≡ item)
            × (channel_of T.mark S.items self.new ≡ channel_of T.mark S.items self.old)) }
        ensures kind { IsSameKind S.capacity self.old self.new }
        ensures arrivals { S.arrivals self.new.store ≤ S.arrivals self.old.store + 1 }
        ensures unpaid { OnErr result (S.arrivals self.new.store ≤ S.arrivals self.old.store) }
    {
        if self.waits.reserve(1).is_err() {
            return Err(item);
        }
        match self.write(item) {
            Tried::NoMemory(back) => Err(back),
            Tried::Answer(reply) => {
                self.count_begin(caller);
                Ok(reply)
            }
            Tried::Wait(item) => Ok(self.wait(caller, Standing::WantsRoom(item))),
        }
    }

    /// A begin of a read.
    pub(crate) fn begin_read(&mut self, caller: u32) -> Result<ChannelReply<T>, AllocError>
        requires caller { caller < 64 }
        requires few { slice_index self.old.begins caller < 2 ^ 60 }
        requires arrivals { S.arrivals self.old.store < 2 ^ 60 }
        ensures ok { IfOk result
            (λ reply. channel.begin (channel_of T.mark S.items self.old) caller channel.WantsItem
            (channel.taken (kind_of S.capacity S.priority self.old)
            (channel_of T.mark S.items self.old))
            ≡ (reply_mark T.mark reply, channel_of T.mark S.items self.new)) }
        ensures fits { IfOk result (λ reply. BeginReadFits reply) }
        ensures begins { OnOk result (self.new.begins ≡ begun self.old.begins caller) }
        ensures err { OnErr result
            (channel_of T.mark S.items self.new ≡ channel_of T.mark S.items self.old) }
        ensures kind { IsSameKind S.capacity self.old self.new }
        ensures arrivals { S.arrivals self.new.store ≤ S.arrivals self.old.store + 1 }
        ensures unpaid { OnErr result (S.arrivals self.new.store ≤ S.arrivals self.old.store) }
    {
        self.waits.reserve(1)?;
        match self.read() {
            Tried::NoMemory(_) => unreachable!(),
            Tried::Answer(reply) => {
                self.count_begin(caller);
                Ok(reply)
            }
            Tried::Wait(_) => Ok(self.wait(caller, Standing::WantsItem)),
        }
    }

    /// A begin of a look for an item.
    pub(crate) fn begin_look_for_item(&mut self, caller: u32) -> Result<ChannelReply<T>, AllocError>
        requires caller { caller < 64 }
        requires few { slice_index self.old.begins caller < 2 ^ 60 }
        ensures ok { IfOk result
            (λ reply. channel.begin (channel_of T.mark S.items self.old) caller channel.LooksForItem
            (channel.looked_read (channel_of T.mark S.items self.old))
            ≡ (reply_mark T.mark reply, channel_of T.mark S.items self.new)) }
        ensures fits { IfOk result (λ reply. BeginLookFits reply) }
        ensures begins { OnOk result (self.new.begins ≡ begun self.old.begins caller) }
        ensures err { OnErr result
            (channel_of T.mark S.items self.new ≡ channel_of T.mark S.items self.old) }
        ensures store { self.new.store ≡ self.old.store }
        ensures mode { self.new.mode ≡ self.old.mode }
    {
        self.waits.reserve(1)?;
        match self.look_for_item() {
            Some(looked) => {
                self.count_begin(caller);
                Ok(looked.into_reply())
            }
            None => Ok(self.wait(caller, Standing::LooksForItem)),
        }
    }

    /// A begin of a look for room.
    pub(crate) fn begin_look_for_room(&mut self, caller: u32) -> Result<ChannelReply<T>, AllocError>
        requires caller { caller < 64 }
        requires few { slice_index self.old.begins caller < 2 ^ 60 }
        ensures ok { IfOk result
            (λ reply. channel.begin (channel_of T.mark S.items self.old) caller channel.LooksForRoom
            (channel.looked_write (kind_of S.capacity S.priority self.old)
            (channel_of T.mark S.items self.old))
            ≡ (reply_mark T.mark reply, channel_of T.mark S.items self.new)) }
        ensures fits { IfOk result (λ reply. BeginLookFits reply) }
        ensures begins { OnOk result (self.new.begins ≡ begun self.old.begins caller) }
        ensures err { OnErr result
            (channel_of T.mark S.items self.new ≡ channel_of T.mark S.items self.old) }
        ensures store { self.new.store ≡ self.old.store }
        ensures mode { self.new.mode ≡ self.old.mode }
    {
        self.waits.reserve(1)?;
        match self.look_for_room() {
            Some(looked) => {
                self.count_begin(caller);
                Ok(looked.into_reply())
            }
            None => Ok(self.wait(caller, Standing::LooksForRoom)),
        }
    }

    /// The answer of a caller's wait, which is then forgotten.
    pub(crate) fn poll(&mut self, caller: u32, number: u64) -> ChannelReply<T>
        ensures answer { channel.poll (channel_of T.mark S.items self.old) caller number
            ≡ (reply_mark T.mark result, channel_of T.mark S.items self.new) }
        ensures fits { PollFits number result }
        ensures store { self.new.store ≡ self.old.store }
        ensures mode { self.new.mode ≡ self.old.mode }
        ensures begins { self.new.begins ≡ self.old.begins }
    {
        let Some(place) = find(self.waits.as_slice(), caller, number) else {
            return ChannelReply::Unknown;
        };
        if is_waiting(self.waits.as_slice(), place) {
            return ChannelReply::Waiting(number);
        }
        fetched(withdraw(&mut self.waits, place))
    }

    /// Gives up a caller's wait, or fetches its answer. It is then forgotten.
    pub(crate) fn cancel(&mut self, caller: u32, number: u64) -> ChannelReply<T>
        ensures answer { channel.cancel (channel_of T.mark S.items self.old) caller number
            ≡ (reply_mark T.mark result, channel_of T.mark S.items self.new) }
        ensures fits { CancelFits result }
        ensures store { self.new.store ≡ self.old.store }
        ensures mode { self.new.mode ≡ self.old.mode }
        ensures begins { self.new.begins ≡ self.old.begins }
    {
        match find(self.waits.as_slice(), caller, number) {
            None => ChannelReply::Unknown,
            Some(place) => cancelled(withdraw(&mut self.waits, place)),
        }
    }

    /// A begin that stands as a wait.
    fn wait(&mut self, caller: u32, standing: Standing<T>) -> ChannelReply<T>
        requires caller { caller < 64 }
        requires few { slice_index self.old.begins caller < 2 ^ 60 }
        requires reserved { vec_len self.old.waits < vec_capacity self.old.waits }
        ensures answer { channel.begin (channel_of T.mark S.items self.old) caller
            (standing_mark T.mark standing) None
            ≡ (reply_mark T.mark result, channel_of T.mark S.items self.new) }
        ensures waiting { result ≡ reply.Waiting (slice_index self.old.begins caller) }
        ensures store { self.new.store ≡ self.old.store }
        ensures mode { self.new.mode ≡ self.old.mode }
        ensures begins { self.new.begins ≡ begun self.old.begins caller }
    {
        let number = self.stand(caller, standing);
        self.count_begin(caller);
        ChannelReply::Waiting(number)
    }

    /// A wait stands last. Its number is its caller's count of begins.
    fn stand(&mut self, caller: u32, standing: Standing<T>) -> u64
        requires caller { caller < 64 }
        requires reserved { vec_len self.old.waits < vec_capacity self.old.waits }
        ensures number { result ≡ slice_index self.old.begins caller }
        ensures waits { waits_mark T.mark self.new.waits.items ≡ waits_mark T.mark
            self.old.waits.items ++ record {
              caller = caller;
              number = slice_index self.old.begins caller;
              standing = standing_mark
                  T.mark standing;
            } ∷ [] }
        ensures store { self.new.store ≡ self.old.store }
        ensures mode { self.new.mode ≡ self.old.mode }
        ensures begins { self.new.begins ≡ self.old.begins }
        ensures completion { self.new.completion ≡ self.old.completion }
    {
        let number = self.begins[caller as usize];
        let waiter = Waiter {
            caller,
            number,
            standing,
        };
        match self.waits.push(waiter) {
            Ok(()) => number,
            Err(_) => unreachable!(),
        }
    }

    /// Counts a begin of a caller.
    fn count_begin(&mut self, caller: u32)
        requires caller { caller < 64 }
        requires few { slice_index self.old.begins caller < 2 ^ 60 }
        ensures channel { channel_of T.mark S.items self.new ≡ record
            (channel_of T.mark S.items self.old) { begins = begun self.old.begins caller } }
        ensures store { self.new.store ≡ self.old.store }
        ensures mode { self.new.mode ≡ self.old.mode }
        ensures begins { self.new.begins ≡ begun self.old.begins caller }
    {
        self.begins[caller as usize] += 1;
    }
}
