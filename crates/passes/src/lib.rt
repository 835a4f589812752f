//! What the passes of all shared objects have in common.
//!
//! A shared object has one history, to which up to 64 numbered callers add entries. Each caller
//! goes by a pass, which holds the numbers of some callers, the count of calls made under each, and
//! what its owner has seen of the history. A pass is split to give a number away, and joined to
//! take numbers back.
//!
//! This crate has the numbers of a pass as code, [`Numbers`], which the pass of each object
//! contains; what contracts see of any pass (`PassView` of `specs/Views.antt`); and the words in
//! which they speak of it: what a call, a refusal, a split and a join leave of a pass
//! (`specs/Calls.antt`). It has the laws that its users need as contracts of functions without
//! code: at which place an entry stands, what a whole pass has seen, and when passes that come home
//! make one. For the crates that keep a rule over many passes it has what each step leaves of one
//! (`specs/Holders.antt`), how sums and histories stand over all of them, and how the entries of a
//! pass add up (`proofs/`). No object is named in it.
//!
//! It stands on `ho_model` for entries, and on `atomic_table` for its laws of lists of views and
//! for the name of a table. It promises upward that `Numbers` is what its contracts say, and the
//! laws.
#![tactic(auto)]

mod arrays;
mod laws;
mod numbers;

pub use laws::{
    a_whole_pass_adds_only_its_own, a_whole_pass_has_seen_all, an_entry_keeps_its_place,
    joined_passes_keep_places, numbers_come_home,
};
pub use numbers::Numbers;
