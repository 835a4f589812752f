//! The bag: an unordered collection with a list for each caller.
//!
//! [`ConcurrentBag`] is the bag that up to 64 callers share, each call one entry of one history that
//! is legal for the bag object of `ho_model`. There is no lock round the whole: a caller adds to its own
//! list and takes from it first, holds a list only while it changes it, and makes its entry at one step
//! of one word (`docs/BAG.md`). [`TurnBag`] is the same behind one turn, and [`BagMachine`] the bag
//! within one thread, proved to be that object: the yardsticks of the first.
//!
//! Adds, counts and takes of a caller's own item take constant time; a take from another's list
//! tries the lists in a ring; a snapshot holds all lists and is linear. Adds and snapshots take memory.
//!
//! An answer counts one call, and no other end of a call counts any; a caller makes at most 2^37. A try
//! that has no answer tells in its contract all that it has read, step by step (`specs/Tries.antt`, and
//! `specs/Causes.antt` of `bag_tries`): so none gives up early, skips a list or leaves out the exchange.
//! `Held` and `Lost` never come with a pass that holds all numbers. Which list a take steals from, and
//! that a try ever succeeds, is not promised. Want of memory is the one answer that is left free, of a
//! maker, of an add that has taken its list and of a snapshot. One that always gave it would be proved, so
//! tests show that each succeeds.
//!
//! Stands on `ho_model`, which says what a bag is, on `bag_rule` and `bag_tries` for the shared words
//! and the calls, on `passes` for the words of its contracts, and, for the form behind a turn, on
//! `item_lists` and `turn_lock`. It promises upward that an answered call adds to what its pass has seen
//! entries of other callers and then its own entry, and that a refusal adds entries of others alone.
#![tactic(auto)]

mod answers;
mod bag;
mod calls;
mod lasting;
mod machine;
mod once;
mod pass;
mod turn_bag;
mod turn_pass;

// what the calls name of the crates below, so that a client lists none of these
pub use answers::{BagAdd, BagAddOnce, BagAgain, BagTake, BagTakeOnce};
pub use bag::ConcurrentBag;
pub use bag_rule::Obstacle;
pub use calls::{BagCall, BagReply};
pub use ho_base::{Item, Marked, NoMemory, Receipt, Unpaid};
pub use ho_model::Items;
pub use machine::BagMachine;
pub use pass::BagPass;
pub use turn_bag::TurnBag;
pub use turn_pass::TurnPass;

#[cfg(test)]
mod tests;
