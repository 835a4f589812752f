// The queue as a plain list.
ghost use Rattle.std.specs.Prelude.{◌≡◌, ◌+◌, ◌^◌, ◌<◌, ◌≤◌, [], ◌∷◌, Some, IfOk, map};
ghost use Rattle.ho_base.specs.Marks.{number_of, number_priority};
ghost use Rattle.ho_model.specs.Queue as queue;
ghost use Rattle.ho_model.specs.Tallies.{tally_next};
ghost use Rattle.ho_model.specs.declared.marks.CallMark.TheVariants as callmark;
ghost use Rattle.concurrent_queue.specs.Calls.{call_mark, reply_mark, fits};
ghost use Rattle.ho_model.specs.declared.objects.Object.TheVariants as object;
ghost use Rattle.concurrent_queue.specs.Kept.{IsQueueOf, state_of, may_want};

use crate::calls::{QueueCall, QueueReply};
use ho_base::{NoMemory, Unpaid};
use ho_model::{Items, Machine, Tally};
use item_lists::ItemRing;
use std::alloc::{AllocError, Global};
use std::marker::Model;

/// The shortest first segment.
const LEAST_FIRST: u32 = 2;

/// A first-in first-out queue of numbers within one thread, with room for so many items, after
/// .NET's `ConcurrentQueue<T>`. Contracts see the room, the length of a first segment, which is a
/// name of its object and changes no answer, the items, how many entries it has made, and how many
/// items were enqueued and taken.
///
/// It serves 64 callers, and takes the memory of its room when it is made.
#[derive(Drop)]
pub struct QueueMachine {
    ring: ItemRing<u64>,
    first_len: u32,
    tally: Tally,
    steps: u64,
    alloc: Global,
}

impl Model for QueueMachine {
    ghost use Rattle.concurrent_queue.specs.Kept.{Kept, IsSound};

    ghost Value = { Kept };

    ghost view = { λ q. record {
      room = q.ring.capacity;
      first_len = q.first_len;
      items = q.ring.items;
      tally = q.tally;
      steps = q.steps;
    } };

    ghost invariant = { λ q. IsSound q.tally q.steps };
}

impl QueueMachine {
    /// A queue without items, with room for so many, whose object has the least length of a first
    /// segment.
    pub fn new(alloc: Global, room: u32) -> Result<QueueMachine, NoMemory>
        ensures { IfOk result (λ q. IsQueueOf room 2 q []) }
    {
        QueueMachine::with_first_length(alloc, room, LEAST_FIRST)
    }

    /// A queue without items, with room for so many, whose object has this length of a first segment.
    pub fn with_first_length(
        alloc: Global,
        room: u32,
        first_len: u32,
    ) -> Result<QueueMachine, NoMemory>
        ensures { IfOk result (λ q. IsQueueOf room first_len q []) }
    {
        let ring = ItemRing::with_capacity(alloc, room)?;
        Ok(QueueMachine {
            ring,
            first_len,
            tally: Tally {
                enqueued: 0,
                taken: 0,
            },
            steps: 0,
            alloc,
        })
    }

    /// How many items were enqueued, and how many taken.
    pub fn tally(&self) -> Tally
        ensures { result ≡ self.now.tally }
    {
        self.tally
    }
}

impl Machine for QueueMachine {
    type Call = QueueCall;

    type Reply = QueueReply;

    ghost object = { λ q. object.Queue q.room q.first_len };

    ghost callers = { λ q. 64 };

    ghost state = { state_of };

    ghost steps = { λ q. q.steps };

    ghost tally = { λ q. q.tally };

    ghost priority = { number_priority };

    ghost call_mark = { call_mark };

    ghost reply_mark = { reply_mark };

    ghost fits = { fits };

    ghost may_want = { may_want };

    fn step(&mut self, caller: u32, call: QueueCall) -> Result<QueueReply, Unpaid<QueueCall>> {
        let reply = match call {
            QueueCall::Enqueue(item) => enqueue(&mut self.ring, &mut self.tally, item),
            QueueCall::Dequeue => dequeue(&mut self.ring, &mut self.tally),
            QueueCall::Peek => peek(&self.ring),
            QueueCall::Count => QueueReply::Count(self.ring.len() as u64),
            QueueCall::Snap => match numbers(&self.ring, self.alloc) {
                Ok(numbers) => QueueReply::Numbers(numbers),
                Err(_) => return Err(Unpaid { back: call }),
            },
        };
        self.steps += 1;
        Ok(reply)
    }
}

/// Puts an item last, and counts it, if there is room.
fn enqueue(ring: &mut ItemRing<u64>, tally: &mut Tally, item: u64) -> QueueReply
    requires { tally.old.enqueued < 2 ^ 60 }
    ensures room { ring.new.capacity ≡ ring.old.capacity }
    ensures answer { queue.enqueued ring.old.capacity ring.old.items (item ∷ []) ≡ (reply_mark result, ring.new.items) }
    ensures tally { tally.new ≡ tally_next tally.old (callmark.Enq (item ∷ [])) (reply_mark result) }
{
    match ring.push(item) {
        Ok(()) => {
            tally.enqueued += 1;
            QueueReply::Done
        }
        Err(_) => QueueReply::Full,
    }
}

/// Takes the first item, and counts it, if there is one.
fn dequeue(ring: &mut ItemRing<u64>, tally: &mut Tally) -> QueueReply
    requires { tally.old.taken < 2 ^ 60 }
    ensures room { ring.new.capacity ≡ ring.old.capacity }
    ensures answer { queue.dequeued ring.old.items ≡ (reply_mark result, ring.new.items) }
    ensures tally { tally.new ≡ tally_next tally.old callmark.Deq (reply_mark result) }
{
    if !ring.has_item() {
        return QueueReply::Empty;
    }
    tally.taken += 1;
    QueueReply::Item(ring.take_first())
}

/// Shows the first item, if there is one.
fn peek(ring: &ItemRing<u64>) -> QueueReply
    ensures { queue.peeked ring.now.items ≡ (reply_mark result, ring.now.items) }
{
    match ring.first() {
        Some(item) => QueueReply::Item(*item),
        None => QueueReply::Empty,
    }
}

/// All items, from the first.
fn numbers(ring: &ItemRing<u64>, alloc: Global) -> Result<Items, AllocError>
    ensures { IfOk result (λ numbers. numbers ≡ map number_of ring.now.items) }
{
    let mut numbers = Vec::with_capacity(alloc, ring.len())?;
    ring.add_numbers(&mut numbers)?;
    Ok(Items::from_vec(numbers))
}
