//! The prioritized channel within one thread: a channel without a capacity whose reads take the
//! item of least priority, and of those of one priority the one that was written first.
//!
//! [`PriorityState`] is the channel of `channel_core` over one more store, std's `BinaryHeap`. Its
//! entries are equal, and ordered, by priority and arrival number alone, so that order and equality
//! agree. `Write` and `Read` cost O(log n) without waits, `Peek` and `Count` O(1).
//!
//! Want of memory is the one free answer; tests show that a channel is made and answers where there is
//! memory.
//!
//! Stands on `channel_core`, which has the rows of the channel's table, and on `ho_model`, which
//! says what a prioritized channel is.
#![tactic(auto)]

mod state;
mod store;

pub use state::PriorityState;

#[cfg(test)]
mod tests;
