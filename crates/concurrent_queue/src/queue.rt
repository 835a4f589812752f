// The queue that callers share.
ghost use Rattle.std.specs.Prelude.{◌≡◌, ◌<◌, ◌≤◌, ◌∷◌, [], ◌↔◌, None, IfOk, Err};

use crate::pass::QueuePass;
use crate::refusals::{QueueRefused, is_bad_room, is_first_length, is_too_large};
use crate::segments;
use ho_base::Receipt;
use queue_tries::{DequeueReply, EnqueueReply, Next, QueueOnce, Window};
use seg_rule::QueueTable;
use std::alloc::Global;
use std::marker::Model;
use std::sync::Wait;

/// A first-in first-out queue of numbers that up to 64 callers share, with room for so many items,
/// after .NET's `ConcurrentQueue<T>`. Contracts see its identity, its room and the length of a first
/// segment.
///
/// Items are stored in segments (`docs/QUEUE.md`). An enqueue of an open segment and a dequeue of a published
/// item take no lock. A call waits for others only while they open a segment, count, or have enqueued the
/// first item and not put it into its slot yet; an enqueue also while takes of others that are not done, or
/// snapshots, hold the places that the next segment could go to. It never waits for room, nor for an item. It
/// asks that its pass has no window open, but for the two calls that read and end it. A caller makes at most
/// 2^48 calls: one more waits for good, or is `Spent`.
///
/// Each call has a form that tries once, and waits for nobody. Its answer counts one call of the caller, an
/// `Again` with `InFlight` or `NoPlace` too; one with `Lost` counts at most one, and one with `Turn` none.
#[derive(Drop)]
pub struct ConcurrentQueue {
    table: QueueTable,
}

impl Model for ConcurrentQueue {
    ghost use Rattle.concurrent_queue.specs.Queues.{QueueId};
    ghost use Rattle.concurrent_queue.specs.Segments.{id_of};

    ghost Value = { QueueId };

    ghost view = { λ q. id_of q.table };
}

impl ConcurrentQueue {
    ghost use Rattle.ho_model.specs.Entries.{entry};
    ghost use Rattle.ho_model.specs.declared.marks.CallMark.TheVariants as callmark;
    ghost use Rattle.ho_model.specs.declared.marks.ReplyMark.TheVariants.{Counted};
    ghost use Rattle.passes.specs.Numbers.{held_count};
    ghost use Rattle.queue_tries.specs.Tries.{enqueue_mark, dequeue_mark};
    ghost use Rattle.concurrent_queue.specs.Passes.{Answers, SplitsQueue, JoinsQueue};
    ghost use Rattle.concurrent_queue.specs.Queues.{IsBadRoom, IsFirstLength, IsTooLarge, IsOf, IsInside, first_of};
    ghost use Rattle.concurrent_queue.specs.Windows.{HasOpened, WindowsOnce, Gives};
    ghost use Rattle.concurrent_queue.specs.Tries.{EnqueuesOnce, DequeuesOnce, PeeksOnce, CountsOnce};
    ghost use Rattle.concurrent_queue.specs.declared.refusals.QueueRefused.TheVariants.{BadRoom, BadLength, TooLarge};

    /// A queue without items for 1 to 64 callers, with room for 1 to 65,536 items, and the first
    /// pass, which holds all numbers. It takes all its memory here, and for a moment twice as much. A bad
    /// room is refused before a bad length, and that before a queue that is too large.
    pub fn new(
        alloc: Global,
        room: u32,
        first_len: u32,
        callers: u32,
    ) -> Result<(ConcurrentQueue, QueuePass), QueueRefused>
        requires callers { (0 < callers) × (callers ≤ 64) }
        ensures made { IfOk result (λ made. (made.0.room ≡ room) × (made.0.first_len ≡ first_len)
            × (made.1 ≡ first_of made.0 callers)) }
        ensures bad_room { (result ≡ Err BadRoom) ↔ IsBadRoom room }
        ensures bad_length { (result ≡ Err BadLength) ↔ ((¬ IsBadRoom room) × (¬ IsFirstLength first_len)) }
        ensures too_large { (result ≡ Err TooLarge) ↔ ((¬ IsBadRoom room) × IsFirstLength first_len
            × IsTooLarge room first_len callers) }
    {
        if is_bad_room(room) {
            return Err(QueueRefused::BadRoom);
        }
        if !is_first_length(first_len) {
            return Err(QueueRefused::BadLength);
        }
        if is_too_large(room, first_len, callers) {
            return Err(QueueRefused::TooLarge);
        }
        match segments::new(alloc, room, first_len, callers) {
            Ok((table, pass)) => Ok((ConcurrentQueue { table }, QueuePass { pass })),
            Err(_) => Err(QueueRefused::NoMemory),
        }
    }

    /// Splits off a pass with the least number that can be given away, which has seen as much.
    ///
    /// The new pass holds that number alone. Takes no memory.
    pub fn split(&self, pass: &mut QueuePass) -> QueuePass
        requires of { IsOf self.now pass.old }
        requires spare { 1 < held_count pass.old.pass.held }
        ensures { SplitsQueue pass.old pass.new result }
    {
        QueuePass {
            pass: segments::split(&self.table, &mut pass.pass),
        }
    }

    /// Takes in another pass of the same queue, with its numbers.
    ///
    /// What is seen afterwards is the longer of the two lists. Each of them begins it, and goes on
    /// with entries of callers other than that pass's own. Takes no memory.
    pub fn join(&self, pass: &mut QueuePass, other: QueuePass)
        requires of { IsOf self.now pass.old × IsOf self.now other }
        ensures { JoinsQueue pass.old other pass.new }
    {
        let QueuePass { pass: other } = other;
        segments::join(&self.table, &mut pass.pass, other)
    }

    /// How many items there is room for.
    pub fn room(&self) -> u32
        ensures { result ≡ self.now.room }
    {
        self.table.form().room
    }

    /// Puts an item last, if there is room (`Enqueue`). Takes no memory.
    ///
    /// The receipt is `Enqueued`, with the count of items enqueued before; of a full queue `Looked`.
    pub fn enqueue<R: Wait>(
        &self,
        rt: &R,
        pass: &mut QueuePass,
        value: u64,
    ) -> (EnqueueReply, Receipt)
        requires { IsOf self.now pass.old }
        ensures { Answers self.now.first_len pass.old
            (entry pass.old.pass.caller (callmark.Enq (value ∷ [])) (enqueue_mark result.0)) result.1 pass.new }
    {
        segments::enqueue(rt, &self.table, &mut pass.pass, value)
    }

    /// Tries to put an item last once: it makes no second try where another caller was first or has the
    /// turn, or where no place is free for a segment. Takes no memory.
    pub fn enqueue_once(&self, pass: &mut QueuePass, value: u64) -> QueueOnce<EnqueueReply>
        requires { IsOf self.now pass.old }
        ensures { EnqueuesOnce pass.old pass.new self.now.first_len value result }
    {
        segments::enqueue_once(&self.table, &mut pass.pass, value)
    }

    /// Takes the first item, if there is one (`TryDequeue`). Takes no memory.
    ///
    /// The receipt is `Dequeued`, with the count of items taken before; of an empty queue `Looked`.
    pub fn dequeue<R: Wait>(&self, rt: &R, pass: &mut QueuePass) -> (DequeueReply, Receipt)
        requires { IsOf self.now pass.old }
        ensures { Answers self.now.first_len pass.old
            (entry pass.old.pass.caller callmark.Deq (dequeue_mark result.0)) result.1 pass.new }
    {
        segments::dequeue(rt, &self.table, &mut pass.pass)
    }

    /// Tries to take the first item once: it makes no second try where another caller was first or has the
    /// turn, or has not put the first item into its slot yet. Takes no memory.
    pub fn dequeue_once(&self, pass: &mut QueuePass) -> QueueOnce<DequeueReply>
        requires { IsOf self.now pass.old }
        ensures { DequeuesOnce pass.old pass.new self.now.first_len result }
    {
        segments::dequeue_once(&self.table, &mut pass.pass)
    }

    /// Shows the first item, if there is one (`TryPeek`). Takes no memory.
    ///
    /// The receipt is `Peeked`, with the count of items taken before; of an empty queue `Looked`.
    pub fn peek<R: Wait>(&self, rt: &R, pass: &mut QueuePass) -> (DequeueReply, Receipt)
        requires { IsOf self.now pass.old }
        ensures { Answers self.now.first_len pass.old
            (entry pass.old.pass.caller callmark.Peek (dequeue_mark result.0)) result.1 pass.new }
    {
        segments::peek(rt, &self.table, &mut pass.pass)
    }

    /// Tries to show the first item once, as [`ConcurrentQueue::dequeue_once`] takes it. Takes no memory.
    pub fn peek_once(&self, pass: &mut QueuePass) -> QueueOnce<DequeueReply>
        requires { IsOf self.now pass.old }
        ensures { PeeksOnce pass.old pass.new self.now.first_len result }
    {
        segments::peek_once(&self.table, &mut pass.pass)
    }

    /// Counts the items (`Count`). Takes no memory. The receipt is `Looked`.
    pub fn count<R: Wait>(&self, rt: &R, pass: &mut QueuePass) -> (u64, Receipt)
        requires { IsOf self.now pass.old }
        ensures { Answers self.now.first_len pass.old
            (entry pass.old.pass.caller callmark.Count (Counted result.0)) result.1 pass.new }
    {
        segments::count(rt, &self.table, &mut pass.pass)
    }

    /// Tries to count the items once: it makes no second try where another caller has the turn, or
    /// enqueued meanwhile. Takes no memory.
    pub fn count_once(&self, pass: &mut QueuePass) -> QueueOnce<u64>
        requires { IsOf self.now pass.old }
        ensures { CountsOnce pass.old pass.new self.now.first_len result }
    {
        segments::count_once(&self.table, &mut pass.pass)
    }

    /// Tries to take a snapshot of all items once, and opens a window on it, which gives them one by one
    /// (`ToArray`): it makes no second try where another caller has the turn, or enqueued meanwhile. Takes no
    /// memory.
    ///
    /// The receipt is `Looked`. The places in which the items lie are not used again until their items are given
    /// or the window is ended.
    pub fn window_once(&self, pass: &mut QueuePass) -> QueueOnce<Window>
        requires { IsOf self.now pass.old }
        ensures { WindowsOnce pass.old pass.new self.now.first_len result }
    {
        segments::window_once(&self.table, &mut pass.pass)
    }

    /// The next item of a window that this pass has opened, if one is left and it is published. It makes no
    /// entry, and takes no memory.
    pub fn window_next(&self, pass: &mut QueuePass, window: &mut Window) -> Next
        requires of { IsInside self.now pass.old }
        requires opened { HasOpened pass.old window.old }
        ensures opened { HasOpened pass.new window.new }
        ensures gives { Gives pass.old window.old pass.new window.new result }
    {
        segments::window_next(&self.table, &mut pass.pass, window)
    }

    /// Ends a window that this pass has opened. It makes no entry, and takes no memory.
    pub fn window_end(&self, pass: &mut QueuePass, window: Window)
        requires of { IsInside self.now pass.old }
        requires opened { HasOpened pass.old window }
        ensures { pass.new ≡ record pass.old { window = None } }
    {
        segments::window_end(&self.table, &mut pass.pass, window)
    }
}
