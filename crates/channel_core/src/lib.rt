//! The channel machine: one thread's channel of items, proved to be the channel of `ho_model`.
//!
//! [`ChannelState`] is a channel without a capacity, over a queue that grows, or one with a
//! capacity in one of the four modes, over a ring that takes its memory when it is made. Its `step`
//! answers each of the twelve calls exactly as the channel's table says; waits are entries that
//! stand in it until they are polled or cancelled. Nothing here waits or is shared: that is the
//! work of the layers above, which may rest on `Machine` alone.
//!
//! The rows of the table are written once, in [`Core`], over any [`ItemStore`], so that a channel
//! that orders its items otherwise is one more store.
//!
//! Without waits `Write`, `Read`, `Peek`, `Count` and `Complete` take constant time (with what the
//! store takes). Begins, polls and cancels are at most linear in the waits that stand; only a begin
//! allocates for a wait.
//!
//! What the contracts leave free is want of memory: a maker that always answered `NoMemory` would be
//! proved, so tests show that a channel is made and answers where there is memory.
//!
//! Stands on `ho_model`, which says what a channel is, and on `circular_buffer`.
#![tactic(auto)]

mod begins;
mod buffer;
mod calls;
mod rows;
mod state;
mod steps;
mod store;
mod waits;

pub use calls::{ChannelCall, ChannelReply};
pub use rows::Core;
pub use state::ChannelState;
pub use store::ItemStore;

#[cfg(test)]
mod tests;
