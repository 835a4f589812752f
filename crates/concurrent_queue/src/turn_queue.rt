// A queue that callers share behind one turn.
ghost use Rattle.std.specs.Prelude.{◌≡◌, ◌<◌, ◌≤◌, ◌∷◌, [], ◌↔◌, IfOk, Err};
ghost use Rattle.ho_base.specs.declared.receipts.Receipt.TheVariants.{Enqueued, Looked};

use crate::calls::{QueueCall, QueueReply};
use crate::refusals::{QueueRefused, is_bad_room, is_first_length};
use crate::telling::TellingQueue;
use crate::turn_pass::TurnQueuePass;
use ho_base::{Receipt, Unpaid};
use ho_model::Tally;
use queue_tries::{DequeueReply, EnqueueReply};
use std::alloc::Global;
use std::marker::Model;
use std::sync::Wait;
use turn_lock::Shared;

/// A first-in first-out queue of numbers that up to 64 callers share, with room for so many items,
/// after .NET's `ConcurrentQueue<T>`. Contracts see its identity, its room and the length of a first
/// segment.
///
/// A call waits for the others that call, and for nothing else: never for room, nor for an item. It asks
/// that its pass has no window open, as no pass has yet. As the queue is built, a caller whose count is
/// 2^48 waits for good: no contract speaks of that.
#[derive(Drop)]
pub struct TurnQueue {
    shared: Shared<TellingQueue>,
    room: u32,
    first_len: u32,
}

impl Model for TurnQueue {
    ghost use Rattle.concurrent_queue.specs.Queues.{QueueId};

    ghost Value = { QueueId };

    ghost view = { λ q. record { table = q.shared; room = q.room; first_len = q.first_len } };
}

impl TurnQueue {
    ghost use Rattle.ho_model.specs.Entries.{entry};
    ghost use Rattle.ho_model.specs.declared.marks.CallMark.TheVariants as callmark;
    ghost use Rattle.ho_model.specs.declared.marks.ReplyMark.TheVariants.{Counted};
    ghost use Rattle.passes.specs.Numbers.{held_count};
    ghost use Rattle.concurrent_queue.specs.Passes.{Answers, SplitsQueue, JoinsQueue};
    ghost use Rattle.concurrent_queue.specs.Queues.{IsBadRoom, IsFirstLength, IsOf, first_of};
    ghost use Rattle.concurrent_queue.specs.Telling.{Told};
    ghost use Rattle.queue_tries.specs.Tries.{enqueue_mark, dequeue_mark};
    ghost use Rattle.concurrent_queue.specs.declared.refusals.QueueRefused.TheVariants.{BadRoom, BadLength, TooLarge};

    /// A queue without items for 1 to 64 callers, with room for 1 to 65,536 items, and the first
    /// pass, which holds all numbers. It takes all its memory here. A bad room is refused before a bad
    /// length.
    pub fn new(
        alloc: Global,
        room: u32,
        first_len: u32,
        callers: u32,
    ) -> Result<(TurnQueue, TurnQueuePass), QueueRefused>
        requires callers { (0 < callers) × (callers ≤ 64) }
        ensures made { IfOk result (λ made. (made.0.room ≡ room) × (made.0.first_len ≡ first_len)
            × (made.1 ≡ first_of made.0 callers)) }
        ensures bad_room { (result ≡ Err BadRoom) ↔ IsBadRoom room }
        ensures bad_length { (result ≡ Err BadLength) ↔ ((¬ IsBadRoom room) × (¬ IsFirstLength first_len)) }
        ensures too_large { ¬ (result ≡ Err TooLarge) }
    {
        if is_bad_room(room) {
            return Err(QueueRefused::BadRoom);
        }
        if !is_first_length(first_len) {
            return Err(QueueRefused::BadLength);
        }
        let Ok(queue) = TellingQueue::new(alloc, room, first_len) else {
            return Err(QueueRefused::NoMemory);
        };
        match Shared::new(alloc, queue, callers) {
            Ok((shared, pass)) => {
                let queue = TurnQueue {
                    shared,
                    room,
                    first_len,
                };
                Ok((queue, TurnQueuePass { pass }))
            }
            Err(_) => Err(QueueRefused::NoMemory),
        }
    }

    /// Splits off a pass with the least number that can be given away, which has seen as much.
    ///
    /// The new pass holds that number alone. Takes no memory.
    pub fn split(&self, pass: &mut TurnQueuePass) -> TurnQueuePass
        requires of { IsOf self.now pass.old }
        requires spare { 1 < held_count pass.old.pass.held }
        ensures { SplitsQueue pass.old pass.new result }
    {
        TurnQueuePass {
            pass: self.shared.split(&mut pass.pass),
        }
    }

    /// Takes in another pass of the same queue, with its numbers.
    ///
    /// What is seen afterwards is the longer of the two lists. Each of them begins it, and goes on
    /// with entries of callers other than that pass's own. Takes no memory.
    pub fn join(&self, pass: &mut TurnQueuePass, other: TurnQueuePass)
        requires of { IsOf self.now pass.old × IsOf self.now other }
        ensures { JoinsQueue pass.old other pass.new }
    {
        let TurnQueuePass { pass: other } = other;
        self.shared.join(&mut pass.pass, other)
    }

    /// How many items there is room for.
    pub fn room(&self) -> u32
        ensures { result ≡ self.now.room }
    {
        self.room
    }

    /// Puts an item last, if there is room (`Enqueue`). Takes no memory.
    ///
    /// The receipt is `Enqueued`, with the count of items enqueued before; of a full queue `Looked`.
    pub fn enqueue<R: Wait>(
        &self,
        rt: &R,
        pass: &mut TurnQueuePass,
        value: u64,
    ) -> (EnqueueReply, Receipt)
        requires { IsOf self.now pass.old }
        ensures { Answers self.now.first_len pass.old
            (entry pass.old.pass.caller (callmark.Enq (value ∷ [])) (enqueue_mark result.0)) result.1 pass.new }
    {
        match self.call(rt, pass, QueueCall::Enqueue(value)) {
            Ok(((QueueReply::Done, tally), _)) => (EnqueueReply::Done, enqueued(tally)),
            Ok(((QueueReply::Full, tally), _)) => (EnqueueReply::Full, looked(tally)),
            _ => unreachable!(),
        }
    }

    /// Takes the first item, if there is one (`TryDequeue`). Takes no memory.
    ///
    /// The receipt is `Dequeued`, with the count of items taken before; of an empty queue `Looked`.
    pub fn dequeue<R: Wait>(&self, rt: &R, pass: &mut TurnQueuePass) -> (DequeueReply, Receipt)
        requires { IsOf self.now pass.old }
        ensures { Answers self.now.first_len pass.old
            (entry pass.old.pass.caller callmark.Deq (dequeue_mark result.0)) result.1 pass.new }
    {
        match self.call(rt, pass, QueueCall::Dequeue) {
            Ok(((QueueReply::Item(item), tally), _)) => {
                (
                    DequeueReply::Item(item),
                    Receipt::Dequeued {
                        position: tally.taken,
                    },
                )
            }
            Ok(((QueueReply::Empty, tally), _)) => (DequeueReply::Empty, looked(tally)),
            _ => unreachable!(),
        }
    }

    /// Shows the first item, if there is one (`TryPeek`). Takes no memory.
    ///
    /// The receipt is `Peeked`, with the count of items taken before; of an empty queue `Looked`.
    pub fn peek<R: Wait>(&self, rt: &R, pass: &mut TurnQueuePass) -> (DequeueReply, Receipt)
        requires { IsOf self.now pass.old }
        ensures { Answers self.now.first_len pass.old
            (entry pass.old.pass.caller callmark.Peek (dequeue_mark result.0)) result.1 pass.new }
    {
        match self.call(rt, pass, QueueCall::Peek) {
            Ok(((QueueReply::Item(item), tally), _)) => {
                (
                    DequeueReply::Item(item),
                    Receipt::Peeked {
                        position: tally.taken,
                    },
                )
            }
            Ok(((QueueReply::Empty, tally), _)) => (DequeueReply::Empty, looked(tally)),
            _ => unreachable!(),
        }
    }

    /// Counts the items (`Count`). Takes no memory. The receipt is `Looked`.
    pub fn count<R: Wait>(&self, rt: &R, pass: &mut TurnQueuePass) -> (u64, Receipt)
        requires { IsOf self.now pass.old }
        ensures { Answers self.now.first_len pass.old
            (entry pass.old.pass.caller callmark.Count (Counted result.0)) result.1 pass.new }
    {
        match self.call(rt, pass, QueueCall::Count) {
            Ok(((QueueReply::Count(count), tally), _)) => (count, looked(tally)),
            _ => unreachable!(),
        }
    }

    /// Waits for the turn, and makes the call. Only a snapshot can come back for want of memory.
    fn call<R: Wait>(
        &self,
        rt: &R,
        pass: &mut TurnQueuePass,
        call: QueueCall,
    ) -> Result<((QueueReply, Tally), Receipt), Unpaid<QueueCall>>
        requires { IsOf self.now pass.old }
        ensures { Told pass.old call pass.new result }
    {
        self.shared.call(rt, &mut pass.pass, call)
    }
}

/// The receipt of an item that was enqueued. Behind a turn all items lie in the first segment.
fn enqueued(tally: Tally) -> Receipt
    ensures { result ≡ Enqueued tally.enqueued 0 }
{
    Receipt::Enqueued {
        position: tally.enqueued,
        segment: 0,
    }
}

/// The receipt of a call that only looked.
fn looked(tally: Tally) -> Receipt
    ensures { result ≡ Looked tally.taken tally.enqueued }
{
    Receipt::Looked {
        head: tally.taken,
        tail: tally.enqueued,
    }
}
