//! How a thread pauses that has to wait for others, and how others wake it.
//!
//! A call that waits tries again and again, and takes a [`Pause`] or a [`Nap`] before each new try. A
//! pause ends by time alone. A nap that lasts is a sleep beside one of the [`Bells`] of an object, and
//! who makes an entry that can end a wait rings them. The crate stands on std alone and promises
//! nothing upward: other pauses, and bells that nobody rings, would only cost other times.
#![tactic(auto)]

mod bells;
mod nap;
mod pause;

pub use bells::{Bells, Hears, News, Nobody, Want};
pub use nap::{Nap, Tries};
pub use pause::Pause;

#[cfg(test)]
mod tests;
