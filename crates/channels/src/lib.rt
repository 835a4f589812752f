//! Channels that up to 64 callers share, each call one entry of one legal history.
//!
//! A [`Channel`] is unbounded, bounded in one of four modes, or prioritized. A caller makes any
//! call by its pass, or hands the pass to a [`Writer`] or a [`Reader`], which have the calls of
//! .NET's `ChannelWriter<T>` and `ChannelReader<T>` that need no wait. Those wait for the turn,
//! never for room or for an item. Any call can also be tried once, without waiting for the turn.
//!
//! A writer and a reader are an [`Access`] each, through which all their calls go. [`Side`] is what
//! they have in common, for code that serves both.
//!
//! Callers that wait sleep beside bells of the channel, and each call rings for those that it can let go
//! on. [`Channel::wake_all`] wakes all of them, for who has cancelled many. No contract speaks of that.
//!
//! It stands on `turn_lock` for the sharing, on `channel_core` and `priority_core` for the two machines
//! under it, and on `pauses` for the bells. It promises upward that each call meets the turn lock's clauses with the
//! channel call of its name: what the pass has seen goes on with entries of other callers and then
//! with that call and its reply, and all of it is legal for the channel. Each maker may answer that
//! there is no memory, since no clause can say that there is some; tests show that it makes a
//! channel.
#![tactic(auto)]

mod access;
mod channel;
mod machine;
mod news;
mod reader;
mod sides;
mod tries;
mod writer;

pub use access::Access;
pub use channel::{Channel, MakeRefused};
pub use reader::{ReadReply, Reader};
pub use sides::Side;
pub use tries::ChannelTry;
pub use writer::{WriteReply, Writer};

// what the calls name of the crates below, so that a client lists none of these
pub use channel_core::{ChannelCall, ChannelReply};
pub use ho_base::{Fault, Item, Marked, NoMemory, Receipt, Unpaid};
pub use ho_model::Mode;
pub use turn_lock::Pass;

#[cfg(test)]
mod tests;
