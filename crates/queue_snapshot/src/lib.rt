//! Snapshots of a shared queue of numbers: all items that it has at one step, whatever other callers do
//! meanwhile.
//!
//! [`observe`] gives them one by one, and [`to_vec`] as a list. The entry is made at one step; the items are
//! read afterwards, while other callers go on to enqueue and to take. They lie in places that the snapshot holds, and that are not used
//! again before it is read.
//!
//! Stands on `concurrent_queue`, whose windows it opens, reads and ends, on `pauses` between tries, and on
//! `ho_base`, `ho_model`, `passes`, `seg_rule` and `queue_tries` for the words of its contracts. It promises
//! upward that an answered call adds to what its pass has seen entries of other callers and then its own
//! entry, whose reply is the very list that it gives, and that no window is left behind.
//!
//! Want of memory is left free. A call that always gave it would be proved, so a test shows that it succeeds.
#![tactic(auto)]

mod items;
mod observed;
mod opening;
mod vectors;

// what the calls name of the crates below, so that a client lists none of these
pub use concurrent_queue::{ConcurrentQueue, Items, Next, NoMemory, QueuePass, Receipt};
pub use observed::{Observed, observe};
pub use vectors::to_vec;

#[cfg(test)]
mod tests;
