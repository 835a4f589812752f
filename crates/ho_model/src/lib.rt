//! The documented objects: what each call of a channel, a queue, a bag and a blocking collection
//! answers in each state, and what a legal history of such calls is.
//!
//! An object is one function of `specs/`: from a state and an entry (a caller, a call and a reply)
//! it gives the next state, or refuses the entry. `specs/Channel.antt`, `specs/Queue.antt`,
//! `specs/Bag.antt` and `specs/Blocking.antt` are to be read beside .NET's documentation, and
//! `docs/MODEL.md` tells them in plain words. `specs/Histories.antt` folds the entries of a history,
//! and `specs/Written.antt` says which entry of an object a script or a history means.
//!
//! The crate stands on `ho_base`. It promises upward: the trait [`Machine`], by which code is tied
//! to an object; one type of entry for all objects; the plain types of scripts and histories, which
//! their marks tell; [`replay`], which judges a history of any object; and the laws of queues, with
//! the receipt that each call on a queue has. A law is the contract of a function without code, as
//! [`a_queue_goes_on_by_its_counts`].
//!
//! [`replay`] plays a history on an object of its own, with items that are numbers: lists and waits
//! in the shape of the definitions, and none of the machines of the crates above. So it has no
//! condition, as those have, and judges what they never come to. What its contract leaves free is
//! want of memory: a body that always answered that would be proved, so tests judge worked histories.
//!
//! No edit of code can turn a definition. What guards them is [`the_objects_accept_the_worked_rows`],
//! histories that were worked by hand, and for receipts the law [`a_receipt_finds_its_item`], which no
//! relation with the counts turned round has.
#![tactic(auto)]

mod histories;
mod laws;
mod machine;
mod marks;
mod objects;
mod replays;
mod rows;

pub use histories::{Call, Entry, History, Items, Reply, Verdict};
pub use laws::{
    a_queue_goes_on_by_its_counts, a_queue_has_what_was_not_taken, a_queue_replies_by_its_counts,
    a_receipt_finds_its_item, what_is_written_is_told_by_its_mark,
};
pub use machine::{Machine, Stepper};
pub use marks::{CallMark, EntryMark, ReplyMark, Tally};
pub use objects::{Mode, Object, Store};
pub use replays::replay;
pub use rows::the_objects_accept_the_worked_rows;

#[cfg(test)]
mod tests;
