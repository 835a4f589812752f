// A channel that is played.
ghost use Rattle.std.specs.Prelude.{◌≡◌, ◌<◌, false, Some, IfOk, length};
ghost use Rattle.ho_base.specs.Marks.{number_priority};
ghost use Rattle.ho_model.specs.Entries as entries;
ghost use Rattle.ho_model.specs.declared.objects.Mode.TheVariants as mode;
ghost use Rattle.ho_model.specs.Answers.{accepted};
ghost use Rattle.ho_model.specs.Channel as channel;
ghost use Rattle.ho_model.specs.Objects.{ChannelState, stepped};
ghost use Rattle.ho_model.specs.Written.{mark_of, call_of, showing, is_peek, entry_of};
ghost use Rattle.ho_model.specs.Judging.{Accepts, IsAnswer, meant};
ghost use Rattle.ho_model.specs.Tries.{kind_of, IsTried};

use super::line::Line;
use super::replies::agrees;
use super::standing::{Want, told_complete};
use super::tried::{Kind, Tried, drops};
use super::waits::{Wait, admit, answer_looks, hand, oldest, tell_all};
use crate::histories::{Call, Entry, Reply};
use crate::objects::{Mode, Object};
use ho_base::NoMemory;
use std::alloc::Global;
use std::marker::Model;

/// The parts of a channel, with items that are numbers. Contracts see the channel.
#[derive(Drop)]
pub(crate) struct Channel {
    pub(super) buffer: Line,
    /// The waits that stand, oldest first.
    pub(super) waits: Vec<Wait>,
    /// How many begins each caller has made.
    pub(super) begins: [u64; 64],
    pub(super) completion: Option<u32>,
}

impl Model for Channel {
    ghost use Rattle.ho_model.specs.Channel as channel;

    ghost Value = { channel.Channel };

    ghost view = { λ c. record {
      buffer = c.buffer;
      waits = c.waits.items;
      begins = c.begins;
      completion = c.completion;
    } };
}

/// Whether a channel in this state accepts an entry.
#[tactic(auto, using(crate::proofs::Judging::accepts_of_unbounded, crate::proofs::Judging::accepts_of_bounded, crate::proofs::Judging::accepts_of_prioritized))]
pub(super) fn accepts(object: &Object, state: &mut Channel, entry: &Entry) -> Result<bool, NoMemory>
    requires { entry.now.caller < 64 }
    ensures { IfOk result (λ accepted. Accepts (stepped number_priority object.now (ChannelState state.old)
        (entry_of object.now entry.now)) (ChannelState state.new) accepted) }
{
    match object {
        Object::Unbounded => {
            let kind = Kind {
                capacity: None,
                mode: Mode::Wait,
                by_priority: false,
            };
            state.accepts(kind, entry)
        }
        Object::Bounded { capacity, mode } => {
            let kind = Kind {
                capacity: Some(*capacity),
                mode: *mode,
                by_priority: false,
            };
            state.accepts(kind, entry)
        }
        Object::Prioritized => {
            let kind = Kind {
                capacity: None,
                mode: Mode::Wait,
                by_priority: true,
            };
            state.accepts(kind, entry)
        }
        _ => Ok(false),
    }
}

impl Channel {
    /// A channel without items and waits.
    pub(super) fn new(alloc: Global) -> Channel
        ensures { result ≡ channel.empty_channel }
    {
        Channel {
            buffer: Line::new(alloc),
            waits: Vec::new(alloc),
            begins: [0; 64],
            completion: None,
        }
    }

    /// Whether the channel makes an entry's reply to its call.
    #[tactic(auto, using(crate::proofs::Judging::accepts_where_it_agrees))]
    fn accepts(&mut self, kind: Kind, entry: &Entry) -> Result<bool, NoMemory>
        requires { entry.now.caller < 64 }
        ensures { IfOk result (λ ok. Accepts
            (accepted (channel.channel_answer (kind_of kind) self.old entry.now.caller (call_of entry.now.call))
            (meant (is_peek entry.now.call) entry.now.reply)) self.new ok) }
    {
        let said = self.answer(kind, entry.caller, entry.call)?;
        Ok(agrees(&said, &entry.reply))
    }

    /// What the channel answers, by the first row of its table that holds, if it has the call.
    fn answer(&mut self, kind: Kind, caller: u32, call: Call) -> Result<Option<Reply>, NoMemory>
        requires { caller < 64 }
        ensures { IfOk result (λ said. IsAnswer (is_peek call)
            (channel.channel_answer (kind_of kind) self.old caller (call_of call)) self.new said) }
    {
        match call {
            Call::Write(item) => self.write_at_once(kind, item),
            Call::Read => self.read_at_once(kind),
            Call::BeginWrite(item) => self.begin_write(kind, caller, item),
            Call::BeginRead => self.begin_read(kind, caller),
            Call::BeginLookRead => self.begin_look_for_item(caller),
            Call::BeginLookWrite => self.begin_look_for_room(kind, caller),
            Call::CompleteWith(fault) => Ok(Some(Reply::Flag(self.complete(fault)))),
            Call::Poll(number) => Ok(Some(self.poll(caller, number))),
            Call::Cancel(number) => Ok(Some(self.cancel(caller, number))),
            Call::Peek => Ok(Some(self.peek(kind))),
            Call::Count => Ok(Some(Reply::Count(self.buffer.len() as u64))),
            Call::Completed => Ok(Some(Reply::Flag(self.is_completed()))),
            _ => Ok(None),
        }
    }

    /// A write that does not wait.
    fn write_at_once(&mut self, kind: Kind, item: u64) -> Result<Option<Reply>, NoMemory>
        ensures { IfOk result (λ said. IsAnswer false (Some (channel.or_else
            (channel.written (kind_of kind) self.old (mark_of item)) (entries.Full, self.old))) self.new said) }
    {
        let tried = self.write(kind, item)?;
        Ok(tried.or(Reply::Full))
    }

    /// A read that does not wait.
    fn read_at_once(&mut self, kind: Kind) -> Result<Option<Reply>, NoMemory>
        ensures { IfOk result (λ said. IsAnswer false (Some (channel.or_else
            (channel.taken (kind_of kind) self.old) (entries.Empty, self.old))) self.new said) }
    {
        let tried = self.read(kind)?;
        Ok(tried.or(Reply::Empty))
    }

    /// A write, as far as it needs no wait.
    pub(super) fn write(&mut self, kind: Kind, item: u64) -> Result<Tried, NoMemory>
        ensures tried { IfOk result (λ tried. IsTried (channel.written (kind_of kind) self.old (mark_of item))
            self.old self.new tried) }
        ensures begins { self.new.begins ≡ self.old.begins }
    {
        if let Some(fault) = self.completion {
            return Ok(Tried::Answer(Reply::Refused(fault, item)));
        }
        if let Some(place) = oldest(self.waits.as_slice(), Want::Item) {
            hand(self.waits.as_mut_slice(), place, item);
            return Ok(Tried::Answer(Reply::Done));
        }
        if kind.is_full(self.buffer.len()) {
            return self.overflow(kind.mode, item);
        }
        self.buffer.push(item)?;
        answer_looks(self.waits.as_mut_slice(), Want::LookForItem);
        Ok(Tried::Answer(Reply::Done))
    }

    /// A write to a full buffer. One without room has no item that could be dropped.
    fn overflow(&mut self, mode: Mode, item: u64) -> Result<Tried, NoMemory>
        ensures tried { IfOk result (λ tried. IsTried (channel.overflow mode self.old (mark_of item))
            self.old self.new tried) }
        ensures begins { self.new.begins ≡ self.old.begins }
    {
        match mode {
            Mode::Wait => Ok(Tried::Wait),
            Mode::DropWrite => Ok(Tried::Answer(Reply::Dropped(item))),
            Mode::DropNewest => self.replace_newest(item),
            Mode::DropOldest => self.replace_oldest(item),
        }
    }

    /// A write in place of the item that was written last.
    fn replace_newest(&mut self, item: u64) -> Result<Tried, NoMemory>
        ensures tried { IfOk result (λ tried. IsTried (channel.overflow mode.DropNewest self.old (mark_of item))
            self.old self.new tried) }
        ensures begins { self.new.begins ≡ self.old.begins }
    {
        if !self.buffer.has_item() {
            return Ok(Tried::Unwritten);
        }
        let gone = self.buffer.take_last();
        self.buffer.push(item)?;
        Ok(Tried::Answer(Reply::Dropped(gone)))
    }

    /// A write in place of the item that was written first.
    fn replace_oldest(&mut self, item: u64) -> Result<Tried, NoMemory>
        ensures tried { IfOk result (λ tried. IsTried (channel.overflow mode.DropOldest self.old (mark_of item))
            self.old self.new tried) }
        ensures begins { self.new.begins ≡ self.old.begins }
    {
        if !self.buffer.has_item() {
            return Ok(Tried::Unwritten);
        }
        let gone = self.buffer.take_first();
        self.buffer.push(item)?;
        Ok(Tried::Answer(Reply::Dropped(gone)))
    }

    /// A read, as far as it needs no wait.
    pub(super) fn read(&mut self, kind: Kind) -> Result<Tried, NoMemory>
        ensures tried { IfOk result (λ tried. IsTried (channel.taken (kind_of kind) self.old)
            self.old self.new tried) }
        ensures begins { self.new.begins ≡ self.old.begins }
    {
        if !self.buffer.has_item() {
            return Ok(match self.completion {
                Some(fault) => Tried::Answer(Reply::ClosedWith(fault)),
                None => Tried::Wait,
            });
        }
        let place = self.buffer.read_place(kind.by_priority);
        match oldest(self.waits.as_slice(), Want::Room) {
            Some(writer) => Ok(Tried::Answer(Reply::Item(self.take_and_admit(place, writer)?))),
            None => Ok(Tried::Answer(Reply::Item(self.take_and_free(kind, place)))),
        }
    }

    /// Takes the item at a place, and lets in that of a waiting write.
    fn take_and_admit(&mut self, place: usize, writer: usize) -> Result<u64, NoMemory>
        requires place { place < length self.old.buffer }
        requires writer { Some writer ≡ channel.oldest channel.wants_room self.old.waits }
        ensures taken { IfOk result (λ item. (mark_of item ≡ channel.item_at self.old.buffer place)
            × (self.new ≡ channel.admitted self.old place writer)) }
        ensures begins { self.new.begins ≡ self.old.begins }
    {
        let next = admit(self.waits.as_mut_slice(), writer);
        let item = self.buffer.remove(place);
        self.buffer.push(next)?;
        Ok(item)
    }

    /// Takes the item at a place, and tells those who look for room if there was none.
    fn take_and_free(&mut self, kind: Kind, place: usize) -> u64
        requires { place < length self.old.buffer }
        ensures item { mark_of result ≡ channel.item_at self.old.buffer place }
        ensures freed { self.new ≡ channel.freed (kind_of kind) self.old place }
        ensures begins { self.new.begins ≡ self.old.begins }
    {
        if kind.is_full(self.buffer.len()) {
            answer_looks(self.waits.as_mut_slice(), Want::LookForRoom);
        }
        self.buffer.remove(place)
    }

    /// A look for an item, as far as it needs no wait.
    pub(super) fn look_for_item(&self) -> Tried
        ensures { IsTried (channel.looked_read self.now) self.now self.now result }
    {
        if self.buffer.has_item() {
            return Tried::Answer(Reply::Ready(true));
        }
        match self.completion {
            Some(fault) => Tried::Answer(told_complete(fault)),
            None => Tried::Wait,
        }
    }

    /// A look for room, as far as it needs no wait.
    pub(super) fn look_for_room(&self, kind: Kind) -> Tried
        ensures { IsTried (channel.looked_write (kind_of kind) self.now) self.now self.now result }
    {
        if let Some(fault) = self.completion {
            return Tried::Answer(told_complete(fault));
        }
        if !kind.is_full(self.buffer.len()) || drops(kind.mode) {
            return Tried::Answer(Reply::Ready(true));
        }
        Tried::Wait
    }

    /// Completes the channel, unless it is complete.
    fn complete(&mut self, fault: u32) -> bool
        ensures { channel.completed self.old fault ≡ (entries.Flag result, self.new) }
    {
        if self.completion.is_some() {
            return false;
        }
        tell_all(self.waits.as_mut_slice(), fault);
        self.completion = Some(fault);
        true
    }

    /// The item that a read would take.
    fn peek(&self, kind: Kind) -> Reply
        ensures { channel.peeked (kind_of kind) self.now ≡ (showing result, self.now) }
    {
        if !self.buffer.has_item() {
            return Reply::Empty;
        }
        let place = self.buffer.read_place(kind.by_priority);
        Reply::Item(self.buffer.at(place))
    }

    /// Whether the channel is complete and has no item left.
    fn is_completed(&self) -> bool
        ensures { result ≡ channel.is_completed self.now }
    {
        self.completion.is_some() && self.buffer.len() == 0
    }
}
