//! Where bytes come from and go to: shelves of named files, sinks of text, the loops that fetch a
//! whole file and put a whole text; and the gate that workers pass before their calls.
//!
//! `Shelf` and `Sink` may tell what they hold. Where they do, as in memory, contracts name the bytes;
//! `DiskShelf` and `TerminalSink` stand over the system and tell nothing: they are the trusted edge.
//! All count: a shelf the bytes that it gave and its fetches that gave none, a sink its puts and how
//! often it was asked for room, and both how often they failed.
//! This crate promises upward that `fetch_whole` gives exactly the file's bytes, or its absence, or
//! that it is too large, and reads at most one byte more than its limit, in fetches of which at most one
//! gives no byte; that `put_whole` puts exactly the text, or a front of it before a failed put, in at
//! most one put a byte; and that exactly one fetch or put failed where these say so, and else none, and
//! of which file the fetch was. `MemShelf` and `MemSink` fail exactly at the calls that were named. It
//! stands on `ho_base`.
//!
//! Want of memory is the one free answer of the shelves and the sink in memory: an `add` or a `fail_at` that
//! always gave it would be proved, so tests call each with ample memory.
#![tactic(auto)]

mod failing;
mod free;
mod gate;
mod shelf;
mod sink;
mod system;
mod whole;

pub use failing::{MemShelf, MemSink};
pub use free::{FreeShelf, FreeSink};
pub use gate::{Gate, OpenGate};
pub use shelf::{Fetched, Shelf};
pub use sink::{Put, Sink};
pub use system::{DiskShelf, TerminalSink};
pub use whole::{Loaded, Written, fetch_whole, put_whole};

#[cfg(test)]
mod tests;
