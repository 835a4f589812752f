//! One history from what each caller made, with receipts.
//!
//! Callers that share an object know their own calls, in order, with the replies; the order among
//! callers stands nowhere. What tells of it are receipts: what each call learned of its place. A [`Part`]
//! is what one caller made, and a history is woven of parts, as `specs/Parts.antt` says: each caller's
//! calls stand in it in their order, and no others.
//!
//! [`weave_placed`] takes receipts that are places, the number of calls before each, as every object
//! behind a turn gives them. There is one such history
//! ([`places_below_a_number_make_a_history`]), and that is the answer. [`weave_queue`] takes the
//! receipts of a queue, which tell how many items were enqueued and taken before a call. Many histories
//! may have these; the answer is legal, and the one that `IsChosen` of `specs/Order.antt` tells, which
//! takes the least caller first. That file also says which of two calls goes before the other, and the
//! laws of this order are the contracts of functions without code:
//! [`a_history_keeps_the_order`], [`a_call_may_stand_earlier`] and
//! [`every_order_that_keeps_the_relation_is_legal`].
//!
//! An enqueue's receipt also has the number of a segment, which no history tells: it is compared with
//! nothing, as [`a_first_length_changes_no_history`] says, and each call keeps its own.
//!
//! The crate stands on `ho_base` for receipts and on `ho_model` for histories, for what is legal, and for
//! the receipt that each call on a queue has. It promises upward the contracts of the two functions
//! and the laws. Not proved is how long they take, and that memory is found: a body that always
//! answered want of it would be proved, so tests weave worked histories, and one of 20,000 calls. Of parts
//! that no history has, the answer is some of their calls, and no clause speaks of it.
#![tactic(auto)]

mod aheads;
mod cursors;
mod laws;
mod least;
mod made;
mod parts;
mod placed;
mod queue;

pub use laws::{
    a_call_may_stand_earlier, a_first_length_changes_no_history, a_history_keeps_the_order,
    every_order_that_keeps_the_relation_is_legal, places_below_a_number_make_a_history,
};
pub use made::Made;
pub use parts::Part;
pub use placed::weave_placed;
pub use queue::weave_queue;

#[cfg(test)]
mod tests;
