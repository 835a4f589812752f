//! The queue of numbers, first in and first out, with room for a number of items.
//!
//! [`ConcurrentQueue`] is the queue that up to 64 callers share, each call one entry of one history
//! that is legal for the queue object of `ho_model`. Its items lie in segments of slots, and there is no
//! lock round the whole: an enqueue and a dequeue make their entry at one exchange of one word
//! (`docs/QUEUE.md`). [`TurnQueue`] is the same behind one turn, and [`QueueMachine`] the queue as a plain
//! list within one thread, proved to be that object: the yardsticks of the first.
//!
//! Of obstacles the contracts show only those that a pass has met: a call may be repeated until it has its
//! answer, and what they say of counts and obstacles holds however often it was. Each answer of a try that
//! is none has its cause in its contract (`specs/Tries.antt`): `Lost`, `Turn` and `InFlight` never come with a
//! pass that holds all numbers. That a try ever succeeds is not promised, nor that one with an answer took the
//! turn only where it must.
//!
//! Enqueues, dequeues, peeks and counts take no memory. They take constant time but for the segments that
//! first is moved past, and where an enqueue opens a segment: it looks into all places for a free one, and
//! writes its slots. A snapshot of the machine is linear and takes its own memory.
//!
//! Want of memory is the one answer that is left free, and only of a maker and of a snapshot of the
//! machine. One that always gave it would be proved, so tests show that each succeeds.
//!
//! Stands on `ho_model`, which says what a queue is, on `seg_rule` and `queue_tries` for the shared words and
//! the tries, on `seg_layout` for the number of places, on `passes` for the words of its contracts, and, for
//! the form behind a turn, on `item_lists` and `turn_lock`. It promises upward that an answered call
//! adds to what its pass has seen entries of other callers and then its own entry, and that the
//! receipt tells the counts of the entries before it.
#![tactic(auto)]

mod calls;
mod machine;
mod pass;
mod queue;
mod refusals;
mod segments;
mod telling;
mod turn_pass;
mod turn_queue;

// what the calls name of the crates below, so that a client lists none of these
pub use calls::{QueueCall, QueueReply};
pub use ho_base::{NoMemory, Receipt, Unpaid};
pub use ho_model::{Items, Tally};
pub use machine::QueueMachine;
pub use pass::QueuePass;
pub use queue::ConcurrentQueue;
pub use queue_tries::{DequeueReply, EnqueueReply, Next, QueueAgain, QueueOnce, Window};
pub use refusals::QueueRefused;
pub use seg_rule::Obstacle;
pub use turn_pass::TurnQueuePass;
pub use turn_queue::TurnQueue;

#[cfg(test)]
mod tests;
