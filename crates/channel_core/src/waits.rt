// The waits that stand in a channel, oldest first.
ghost use Rattle.std.specs.Prelude.{◌≡◌, ℕ, ◌<◌, List, true, false, length, map, position, remove, vec_len};
ghost use Rattle.ho_model.specs.Channel as channel;
ghost use Rattle.ho_model.specs.declared.marks.ReplyMark.TheVariants as replymark;
ghost use Rattle.channel_core.specs.Marks.{kind_of, standing_mark, waiter_mark, waits_mark, reply_mark, settled_mark, looked_mark, fault_number};
ghost use Rattle.channel_core.specs.Fits.{IsLooked, IsSettled, CancelFits};

use crate::calls::ChannelReply;
use ho_base::{Fault, Marked};
use std::mem::replace;

/// What a look found.
#[derive(Clone, Copy)]
pub enum Looked {
    Ready(bool),
    Faulted(Fault),
}

/// The answer that a wait got.
#[derive(Drop)]
pub enum Settled<T> {
    Done,
    Refused(Option<Fault>, T),
    Item(T),
    Closed(Option<Fault>),
    Look(Looked),
}

/// What a wait wants, or the answer that it has.
#[derive(Drop)]
pub enum Standing<T> {
    WantsItem,
    WantsRoom(T),
    LooksForItem,
    LooksForRoom,
    Answered(Settled<T>),
}

/// A wait: whose it is, its number, and where it stands.
#[derive(Drop)]
pub struct Waiter<T> {
    pub caller: u32,
    pub number: u64,
    pub standing: Standing<T>,
}

/// Which waits are meant.
#[derive(Clone, Copy)]
pub enum Want {
    Item,
    Room,
    LookForItem,
    LookForRoom,
}

impl Looked {
    /// What a look is told once the channel is complete.
    pub fn at_completion(fault: Option<Fault>) -> Looked
        ensures { looked_mark result ≡ channel.told_complete (fault_number fault) }
    {
        match fault {
            None => Looked::Ready(false),
            Some(fault) => Looked::Faulted(fault),
        }
    }

    /// The finding as a reply.
    pub fn into_reply<T: Marked>(self) -> ChannelReply<T>
        ensures mark { reply_mark T.mark result ≡ looked_mark self }
        ensures looked { IsLooked result }
    {
        match self {
            Looked::Ready(flag) => ChannelReply::Ready(flag),
            Looked::Faulted(fault) => ChannelReply::Faulted(fault),
        }
    }
}

impl<T: Marked> Settled<T> {
    /// The answer as a reply.
    pub fn into_reply(self) -> ChannelReply<T>
        ensures mark { reply_mark T.mark result ≡ settled_mark T.mark self }
        ensures settled { IsSettled result }
    {
        match self {
            Settled::Done => ChannelReply::Done,
            Settled::Refused(fault, item) => ChannelReply::Refused(fault, item),
            Settled::Item(item) => ChannelReply::Item(item),
            Settled::Closed(fault) => ChannelReply::Closed(fault),
            Settled::Look(looked) => looked.into_reply(),
        }
    }
}

impl<T: Marked> Standing<T> {
    fn is(&self, want: Want) -> bool
        ensures { result ≡ kind_of want (standing_mark T.mark self.now) }
    {
        match (self, want) {
            (Standing::WantsItem, Want::Item) => true,
            (Standing::WantsRoom(_), Want::Room) => true,
            (Standing::LooksForItem, Want::LookForItem) => true,
            (Standing::LooksForRoom, Want::LookForRoom) => true,
            _ => false,
        }
    }

    fn is_unanswered(&self) -> bool
        ensures { result ≡ channel.is_waiting (standing_mark T.mark self.now) }
    {
        !matches!(self, Standing::Answered(_))
    }
}

impl<T: Marked> Waiter<T> {
    fn is_of(&self, caller: u32, number: u64) -> bool
        ensures { result ≡ channel.is_wait caller number (waiter_mark T.mark self.now) }
    {
        self.caller == caller && self.number == number
    }

    /// Tells a wait of this kind that what it looks for is there.
    fn answer_look(&mut self, want: Want)
        ensures { waiter_mark T.mark self.new ≡ channel.answer_if (kind_of want)
            (replymark.Ready true) (waiter_mark T.mark self.old) }
    {
        if self.standing.is(want) {
            self.standing = Standing::Answered(Settled::Look(Looked::Ready(true)));
        }
    }

    /// Tells an unanswered wait that the channel is complete.
    fn tell(&mut self, fault: Option<Fault>)
        ensures { waiter_mark T.mark self.new ≡ channel.tell (fault_number fault)
            (waiter_mark T.mark self.old) }
    {
        let standing = replace(&mut self.standing, Standing::WantsItem);
        self.standing = told(fault, standing);
    }
}

/// Where a wait stands once the channel is complete.
fn told<T: Marked>(fault: Option<Fault>, standing: Standing<T>) -> Standing<T>
    ensures { standing_mark T.mark result ≡ channel.told (fault_number fault)
        (standing_mark T.mark standing) }
{
    match standing {
        Standing::WantsItem => Standing::Answered(Settled::Closed(fault)),
        Standing::WantsRoom(item) => Standing::Answered(Settled::Refused(fault, item)),
        Standing::LooksForItem | Standing::LooksForRoom => {
            Standing::Answered(Settled::Look(Looked::at_completion(fault)))
        }
        Standing::Answered(answer) => Standing::Answered(answer),
    }
}

/// The place of the oldest such wait.
pub fn oldest<T: Marked>(waits: &[Waiter<T>], want: Want) -> Option<usize>
    ensures { result ≡ channel.oldest (kind_of want) (waits_mark T.mark waits.now) }
{
    place_of(waits, want)
}

fn place_of<T: Marked>(waits: &[Waiter<T>], want: Want) -> Option<usize>
    ensures { result ≡ position (λ w. kind_of want (standing_mark T.mark w.standing)) waits.now }
{
    waits.iter().position(|w| w.standing.is(want))
}

/// The place of a caller's wait with this number.
pub fn find<T: Marked>(waits: &[Waiter<T>], caller: u32, number: u64) -> Option<usize>
    ensures { result ≡ channel.wait_place (waits_mark T.mark waits.now) caller number }
{
    find_here(waits, caller, number)
}

fn find_here<T: Marked>(waits: &[Waiter<T>], caller: u32, number: u64) -> Option<usize>
    ensures { result ≡ position (λ w. channel.is_wait caller number (waiter_mark T.mark w))
        waits.now }
{
    waits.iter().position(|w| w.is_of(caller, number))
}

/// Whether the wait at a place has no answer yet.
pub fn is_waiting<T: Marked>(waits: &[Waiter<T>], place: usize) -> bool
    requires { place < length waits.now }
    ensures { result ≡ channel.is_waiting
        (channel.waiter_at (waits_mark T.mark waits.now) place).standing }
{
    waits[place].standing.is_unanswered()
}

/// All such waits are told that what they look for is there.
pub fn answer_looks<T: Marked>(waits: &mut [Waiter<T>], want: Want)
    ensures { waits_mark T.mark waits.new ≡ channel.answer_all (kind_of want) (replymark.Ready true)
        (waits_mark T.mark waits.old) }
{
    for w in waits.iter_mut() {
        w.answer_look(want);
    }
}

/// All unanswered waits are told that the channel is complete.
pub fn tell_all<T: Marked>(waits: &mut [Waiter<T>], fault: &Option<Fault>)
    ensures { waits_mark T.mark waits.new ≡ map (channel.tell (fault_number fault.now))
        (waits_mark T.mark waits.old) }
{
    for w in waits.iter_mut() {
        w.tell(*fault);
    }
}

/// Hands an item to the wait at a place.
pub fn hand<T: Marked>(waits: &mut [Waiter<T>], place: usize, item: T)
    requires { place < length waits.old }
    ensures { waits_mark T.mark waits.new ≡ channel.answer_at (waits_mark T.mark waits.old) place
        (replymark.Item (T.mark item)) }
{
    let waiter = &mut waits[place];
    waiter.standing = Standing::Answered(Settled::Item(item));
}

/// Answers the waiting write at a place, and gives its item.
pub fn admit<T: Marked>(waits: &mut [Waiter<T>], place: usize) -> T
    requires place { place < length waits.old }
    requires wants { channel.wants_room
        (channel.waiter_at (waits_mark T.mark waits.old) place).standing ≡ true }
    ensures item { T.mark result ≡ channel.item_of
        (channel.waiter_at (waits_mark T.mark waits.old) place).standing }
    ensures waits { waits_mark T.mark waits.new ≡ channel.answer_at (waits_mark T.mark waits.old)
        place replymark.Done }
{
    let waiter = &mut waits[place];
    match replace(&mut waiter.standing, Standing::Answered(Settled::Done)) {
        Standing::WantsRoom(item) => item,
        _ => unreachable!(),
    }
}

/// Removes the wait at a place, and gives what it wanted or was answered.
pub fn withdraw<T: Marked>(waits: &mut Vec<Waiter<T>>, place: usize) -> Standing<T>
    requires { place < vec_len waits.old }
    ensures standing { standing_mark T.mark result
        ≡ (channel.waiter_at (waits_mark T.mark waits.old.items) place).standing }
    ensures waits { waits_mark T.mark waits.new.items ≡ remove (waits_mark T.mark waits.old.items)
        place }
{
    let waiter = waits.remove(place);
    waiter.standing
}

/// What a cancel of a wait says.
pub fn cancelled<T: Marked>(standing: Standing<T>) -> ChannelReply<T>
    ensures mark { reply_mark T.mark result ≡ channel.cancelled (standing_mark T.mark standing) }
    ensures fits { CancelFits result }
{
    match standing {
        Standing::WantsRoom(item) => ChannelReply::CancelledWrite(item),
        Standing::Answered(answer) => answer.into_reply(),
        _ => ChannelReply::Cancelled,
    }
}

/// The answer of an answered wait.
pub fn fetched<T: Marked>(standing: Standing<T>) -> ChannelReply<T>
    requires { channel.is_waiting (standing_mark T.mark standing) ≡ false }
    ensures mark { (number : ℕ) → reply_mark T.mark result ≡ channel.polled
        (standing_mark T.mark standing) number }
    ensures settled { IsSettled result }
{
    match standing {
        Standing::Answered(answer) => answer.into_reply(),
        _ => unreachable!(),
    }
}
