// The rows of the channel's table that need no wait, over any store of items.
ghost use Rattle.std.specs.Prelude.{◌≡◌, ℕ, ◌+◌, ◌^◌, ◌<◌, ◌≤◌, [], true, false, Some, None, length, replicate};
ghost use Rattle.ho_model.specs.declared.marks.ReplyMark.TheVariants as replymark;
ghost use Rattle.ho_model.specs.Channel as channel;
ghost use Rattle.channel_core.specs.Marks.{waits_mark, reply_mark, fault_number};
ghost use Rattle.channel_core.specs.Store.{HasRoom};
ghost use Rattle.channel_core.specs.Fits.{IsWritten, IsRead, PeekFits};
ghost use Rattle.channel_core.specs.Rows.{channel_of, kind_of, IsSameKind, HasSameRoom, IsTried, AnswersBy, HasMemory, IsLook, unit, WantsUnbounded, KeepsUnpaid};

use crate::calls::ChannelReply;
use crate::store::ItemStore;
use crate::waits::{Looked, Waiter, Want, admit, answer_looks, hand, oldest, tell_all};
use ho_base::{Fault, Marked};
use ho_model::Mode;
use std::alloc::Global;

/// The parts of a channel, over any store of items.
#[derive(Drop)]
pub struct Core<T, S> {
    pub(crate) mode: Mode,
    pub(crate) store: S,
    /// The waits that stand, oldest first.
    pub(crate) waits: Vec<Waiter<T>>,
    /// How many begins each caller has made.
    pub(crate) begins: [u64; 64],
    pub(crate) completion: Option<Option<Fault>>,
}

/// What a write or a read came to: an answer, or what it was given, where it would have to wait or
/// there was no memory.
#[derive(Drop)]
pub(crate) enum Tried<T, X> {
    Answer(ChannelReply<T>),
    Wait(X),
    NoMemory(X),
}

impl<T: Marked, S: ItemStore<T>> Core<T, S> {
    /// A channel whose items are those of the store.
    pub fn new(alloc: Global, mode: Mode, store: S) -> Core<T, S>
        ensures store { result.store ≡ store }
        ensures mode { result.mode ≡ mode }
        ensures waits { result.waits.items ≡ [] }
        ensures begins { result.begins ≡ replicate 64 0 }
        ensures completion { result.completion ≡ None }
    {
        Core {
            mode,
            store,
            waits: Vec::new(alloc),
            begins: [0; 64],
            completion: None,
        }
    }

    /// A write, as far as it needs no wait.
    pub(crate) fn write(&mut self, item: T) -> Tried<T, T>
        requires room { HasRoom (S.capacity self.old.store) }
        requires arrivals { S.arrivals self.old.store < 2 ^ 60 }
        ensures tried { IsTried T.mark
            (channel.written (kind_of S.capacity S.priority self.old)
            (channel_of T.mark S.items self.old) (T.mark item))
            (channel_of T.mark S.items self.old) (channel_of T.mark S.items self.new) item result }
        ensures fits { AnswersBy (IsWritten item) result }
        ensures memory { WantsUnbounded (S.capacity self.old.store) result }
        ensures kind { IsSameKind S.capacity self.old self.new }
        ensures same { HasSameRoom self.old self.new }
        ensures arrivals { S.arrivals self.new.store ≤ S.arrivals self.old.store + 1 }
        ensures unpaid { KeepsUnpaid (S.arrivals self.old.store) (S.arrivals self.new.store)
            result }
    {
        if let Some(fault) = self.completion {
            return Tried::Answer(ChannelReply::Refused(fault, item));
        }
        if let Some(place) = oldest(self.waits.as_slice(), Want::Item) {
            hand(self.waits.as_mut_slice(), place, item);
            return Tried::Answer(ChannelReply::Done);
        }
        if self.store.is_full() {
            return self.overflow(item);
        }
        match self.store.push(item) {
            Err(back) => Tried::NoMemory(back),
            Ok(()) => {
                answer_looks(self.waits.as_mut_slice(), Want::LookForItem);
                Tried::Answer(ChannelReply::Done)
            }
        }
    }

    /// A write to a full buffer.
    fn overflow(&mut self, item: T) -> Tried<T, T>
        requires room { HasRoom (S.capacity self.old.store) }
        requires full { channel.is_full (S.capacity self.old.store)
            (length (S.items self.old.store)) ≡ true }
        ensures tried { IsTried T.mark
            (channel.overflow self.old.mode (channel_of T.mark S.items self.old) (T.mark item))
            (channel_of T.mark S.items self.old) (channel_of T.mark S.items self.new) item result }
        ensures fits { AnswersBy (IsWritten item) result }
        ensures memory { HasMemory result }
        ensures kind { IsSameKind S.capacity self.old self.new }
        ensures same { HasSameRoom self.old self.new }
        ensures arrivals { S.arrivals self.new.store ≤ S.arrivals self.old.store }
    {
        match self.mode {
            Mode::Wait => Tried::Wait(item),
            Mode::DropWrite => Tried::Answer(ChannelReply::Dropped(item)),
            Mode::DropOldest => Tried::Answer(ChannelReply::Dropped(
                self.store.replace_oldest(item),
            )),
            Mode::DropNewest => Tried::Answer(ChannelReply::Dropped(
                self.store.replace_newest(item),
            )),
        }
    }

    /// A read, as far as it needs no wait.
    pub(crate) fn read(&mut self) -> Tried<T, ()>
        requires arrivals { S.arrivals self.old.store < 2 ^ 60 }
        ensures tried { IsTried T.mark
            (channel.taken (kind_of S.capacity S.priority self.old)
            (channel_of T.mark S.items self.old))
            (channel_of T.mark S.items self.old) (channel_of T.mark S.items self.new) unit result }
        ensures fits { AnswersBy IsRead result }
        ensures memory { HasMemory result }
        ensures kind { IsSameKind S.capacity self.old self.new }
        ensures same { HasSameRoom self.old self.new }
        ensures arrivals { S.arrivals self.new.store ≤ S.arrivals self.old.store + 1 }
    {
        if self.store.len() == 0 {
            return match self.completion {
                Some(fault) => Tried::Answer(ChannelReply::Closed(fault)),
                None => Tried::Wait(()),
            };
        }
        match oldest(self.waits.as_slice(), Want::Room) {
            Some(writer) => Tried::Answer(ChannelReply::Item(self.take_and_admit(writer))),
            None => Tried::Answer(ChannelReply::Item(self.take_and_free())),
        }
    }

    /// Takes an item, and lets in that of a waiting write.
    fn take_and_admit(&mut self, writer: usize) -> T
        requires some { 0 < length (S.items self.old.store) }
        requires writer { Some writer ≡ channel.oldest channel.wants_room
            (waits_mark T.mark self.old.waits.items) }
        requires arrivals { S.arrivals self.old.store < 2 ^ 60 }
        ensures item { T.mark result ≡ channel.item_at (S.items self.old.store)
            (channel.read_place S.priority (S.items self.old.store)) }
        ensures channel { channel_of T.mark S.items self.new ≡ channel.admitted
            (channel_of T.mark S.items self.old)
            (channel.read_place S.priority (S.items self.old.store)) writer }
        ensures kind { IsSameKind S.capacity self.old self.new }
        ensures same { HasSameRoom self.old self.new }
        ensures arrivals { S.arrivals self.new.store ≤ S.arrivals self.old.store + 1 }
    {
        let next = admit(self.waits.as_mut_slice(), writer);
        self.store.take_and_put(next)
    }

    /// Takes an item, and tells those who look for room if there was none.
    fn take_and_free(&mut self) -> T
        requires some { 0 < length (S.items self.old.store) }
        ensures item { T.mark result ≡ channel.item_at (S.items self.old.store)
            (channel.read_place S.priority (S.items self.old.store)) }
        ensures channel { channel_of T.mark S.items self.new ≡ channel.freed
            (kind_of S.capacity S.priority self.old) (channel_of T.mark S.items self.old)
            (channel.read_place S.priority (S.items self.old.store)) }
        ensures kind { IsSameKind S.capacity self.old self.new }
        ensures same { HasSameRoom self.old self.new }
        ensures arrivals { S.arrivals self.new.store ≤ S.arrivals self.old.store }
    {
        if self.store.is_full() {
            answer_looks(self.waits.as_mut_slice(), Want::LookForRoom);
        }
        self.store.take()
    }

    /// A look for an item, as far as it needs no wait.
    pub(crate) fn look_for_item(&self) -> Option<Looked>
        ensures look { IsLook (channel.looked_read (channel_of T.mark S.items self.now))
            (channel_of T.mark S.items self.now) result }
    {
        if self.store.len() > 0 {
            return Some(Looked::Ready(true));
        }
        match self.completion {
            Some(fault) => Some(Looked::at_completion(fault)),
            None => None,
        }
    }

    /// A look for room, as far as it needs no wait.
    pub(crate) fn look_for_room(&self) -> Option<Looked>
        ensures look { IsLook
            (channel.looked_write (kind_of S.capacity S.priority self.now)
            (channel_of T.mark S.items self.now)) (channel_of T.mark S.items self.now) result }
    {
        if let Some(fault) = self.completion {
            return Some(Looked::at_completion(fault));
        }
        if !self.store.is_full() || drops(self.mode) {
            return Some(Looked::Ready(true));
        }
        None
    }

    /// Completes the channel, unless it is complete.
    pub(crate) fn complete(&mut self, fault: Option<Fault>) -> bool
        ensures answer { channel.completed (channel_of T.mark S.items self.old) (fault_number fault)
            ≡ (replymark.Flag result, channel_of T.mark S.items self.new) }
        ensures store { self.new.store ≡ self.old.store }
        ensures mode { self.new.mode ≡ self.old.mode }
        ensures begins { self.new.begins ≡ self.old.begins }
    {
        if self.completion.is_some() {
            return false;
        }
        tell_all(self.waits.as_mut_slice(), &fault);
        self.completion = Some(fault);
        true
    }

    /// The number of the item that a read would take.
    pub(crate) fn peek(&self) -> ChannelReply<T>
        ensures answer { channel.peeked (kind_of S.capacity S.priority self.now)
            (channel_of T.mark S.items self.now)
            ≡ (reply_mark T.mark result, channel_of T.mark S.items self.now) }
        ensures fits { PeekFits result }
    {
        if self.store.len() == 0 {
            return ChannelReply::Empty;
        }
        ChannelReply::Shown(self.store.show())
    }

    /// Whether the channel is complete and has no item left.
    pub(crate) fn is_completed(&self) -> bool
        ensures { result ≡ channel.is_completed (channel_of T.mark S.items self.now) }
    {
        self.completion.is_some() && self.store.len() == 0
    }
}

/// Whether a write to a full buffer drops an item in this mode.
fn drops(mode: Mode) -> bool
    ensures { result ≡ channel.drops mode }
{
    !matches!(mode, Mode::Wait)
}
