//! Reads, writes and looks that wait, waited out or polled as futures, and given up by a token.
//!
//! **A thread that waits** calls [`read`], [`write`], [`wait_to_read`] or [`wait_to_write`]: each begins,
//! and polls until there is an answer, with one look at a [`CancelToken`](cancel_flag::CancelToken) after
//! each own entry that says that the wait stands. [`read_without_token`] and [`write_without_token`] do so
//! without a token. Between polls they pause, and soon sleep until an entry rings for them, so that a thread
//! that waits leaves its core to others. A caller that sleeps looks at its token only when it wakes: some
//! 8 milliseconds after it was set at the latest, or at once where who cancels calls
//! [`Channel::wake_all`](channels::Channel::wake_all).
//!
//! **A caller that polls by itself** takes a wait by value: [`OwnedReadWait`], [`OwnedWriteWait`],
//! [`OwnedReadLook`] or [`OwnedWriteLook`]. Its `begin` takes the reader or writer, its end gives it back,
//! and every contract says what that has seen. [`ReadWait`], [`WriteWait`] and [`LookWait`] borrow their
//! reader or writer instead. What it ends as after an end at once or for want of memory is a clause of their
//! begins too, and of the first two also where the wait stands; but the checker gives that to no caller: one
//! whose own contract speaks of its reader afterwards takes the wait by value.
//!
//! All waits are futures: a poll tries one `Poll`, and `cancel` makes one `Cancel`. A poll that has no
//! answer asks to be polled again at once, so that an executor that runs one keeps a core busy and calls
//! the channel all the time. They are for tests, and for executors that pause by themselves.
//!
//! Two things differ from what a user of .NET may expect. A token that was set before does not refuse
//! an item that is there: the token is looked at only while a wait stands. And a wait that is dropped
//! without its answer still stands in the channel under its number: a read takes the next item, and the
//! item of a write enters once there is room, until the caller ends the wait by the call `Cancel` with
//! that number.
//!
//! Want of memory is the one answer that is left free, and the begins alone can give it: one that always
//! gave it would be proved, so tests show that each succeeds.
//!
//! It stands on `channels` for single calls and single tries, on `wait_loop` for the loops and for the
//! words of what they add (`WaitsOut`, `PollsOut`), on `cancel_flag` for the token and for the words of
//! what looks at it leave, on `channel_laws` for the law that a wait is answered in the kind of its begin,
//! and on `futures` for what a poll owes its caller. It promises upward which own entries each call adds
//! and what its answer has to do with them; that each of them is one counted call; that a wait's answer is
//! handed out once, by the entry that fetched it; and that a wait which was given up took no item and left
//! none.
//!
//! What the inner calls serve alike, a writer or a reader, they take as a [`Side`](channels::Side),
//! since a future's poll may not call what asks that an item is `Send`.
#![tactic(auto)]

mod begins;
mod calls;
mod ends;
mod lent;
mod look_wait;
mod owned_read_look;
mod owned_read_wait;
mod owned_write_look;
mod owned_write_wait;
mod polls;
mod read_wait;
mod waits;
mod write_wait;

pub use calls::{
    read, read_without_token, wait_to_read, wait_to_write, write, write_without_token,
};
pub use ends::{Begun, LookEnd, ReadEnd, WriteEnd};
pub use look_wait::LookWait;
pub use owned_read_look::OwnedReadLook;
pub use owned_read_wait::OwnedReadWait;
pub use owned_write_look::OwnedWriteLook;
pub use owned_write_wait::OwnedWriteWait;
pub use read_wait::ReadWait;
pub use write_wait::WriteWait;

#[cfg(test)]
mod tests;
