//! Lists of items, under the machines of queues, bags and blocking collections.
//!
//! [`ItemList`] grows, [`ItemRing`] takes its memory when it is made, and [`CallerLists`] has a list
//! for each caller and knows how many items there are in all. Contracts see each as the marks of its
//! items, oldest first, in the words by which `ho_model` says what the objects are: so a machine
//! over them needs no lists of its own.
//!
//! Adds and takes are constant time, but for a take from another caller's list, which looks for the
//! first list that has an item. Snapshots are linear.
//!
//! Want of memory is the one answer that is left free: a maker, a push into a list that grows or a
//! snapshot that always gave it would be proved, so tests, here and above, show that each succeeds.
//!
//! Stands on `ho_base`, on `ho_model` for the words, and on `circular_buffer`.
#![tactic(auto)]

mod caller_lists;
mod item_list;
mod item_ring;

pub use caller_lists::{CallerLists, Taken};
pub use item_list::ItemList;
pub use item_ring::ItemRing;

#[cfg(test)]
mod tests;
