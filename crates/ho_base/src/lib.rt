//! The small values that every crate of the repository speaks of: items and what contracts see of
//! them, faults, receipts, words and texts, the numbers that words stand for, and want of memory.
//!
//! It stands on std alone. It promises upward that an item's number and priority are read off its
//! mark, that a fault is never zero, that words and texts are the bytes they were made of, and that a
//! number is the one its digits stand for.
//!
//! Want of memory is the one free answer: a `Word::new` that always gave it would be proved, so a test calls
//! it with ample memory.
#![tactic(auto)]

mod bytes;
mod faults;
mod items;
mod memory;
mod numbers;
mod receipts;

pub use bytes::{Text, Word};
pub use faults::Fault;
pub use items::{Item, Marked};
pub use memory::{NoMemory, Unpaid};
pub use numbers::{magnitude, word_number};
pub use receipts::Receipt;

#[cfg(test)]
mod tests;
