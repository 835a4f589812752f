//! One try of each call on a queue that is stored in segments, on a pass of its table.
//!
//! [`enqueue_once`], [`dequeue_once`], [`peek_once`] and [`count_once`] take the steps of one call, in
//! the order that correctness hangs on, and say why they did not get through: none waits for another
//! caller. An enqueue of an open segment and a dequeue of a published item take no turn; the turn is
//! for a full segment, an item that is not published, and a count.
//!
//! It stands on `seg_rule`, whose steps the tries are made of, and on `seg_layout` for slots and numbers.
//! It promises upward that an answer made exactly its own entry, with its receipt, and that a try
//! which made none has read a cause for it of others (`specs/Tries.antt`, `specs/Causes.antt`). A try of a
//! dequeue, a peek or a count takes constant time but for the segments that first is moved past; one of an
//! enqueue too, but where it opens a segment: it looks into all places for a free one, and writes its
//! slots. No try takes memory.
#![tactic(auto)]

mod answers;
mod counts;
mod dequeues;
mod enqueues;
mod firsts;
mod fronts;
mod growth;
mod lasting;
mod loads;
mod peeks;
mod scans;
mod snaps;
mod tails;
mod windows;

pub use answers::{DequeueReply, EnqueueReply, Next, QueueAgain, QueueOnce, Window};
pub use counts::count_once;
pub use dequeues::dequeue_once;
pub use enqueues::enqueue_once;
pub use lasting::{count, dequeue, enqueue, peek};
pub use peeks::peek_once;
pub use snaps::window_once;
pub use windows::{window_end, window_next};

#[cfg(test)]
mod tests;
