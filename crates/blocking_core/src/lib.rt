//! The blocking collection within one thread, proved to be the blocking object of `ho_model`.
//!
//! [`BlockingState`] keeps its items first in first out, last in first out, or in a list for each
//! caller, with a bound or none. Its `step` answers each of the seven calls exactly as the
//! collection's table says. Nothing here waits or is shared: a take of an empty collection answers
//! so at once, and the layers above try again.
//!
//! With a bound the memory of one list is taken when the state is made, so that only a snapshot can
//! want more. Without one, and with a list for each caller, an add takes memory too.
//!
//! Want of memory is the one answer that is left free: a maker that always gave it would be proved, so
//! tests show that a state is made and answers.
//!
//! Stands on `ho_model`, which says what a blocking collection is, and on `item_lists`. It promises
//! upward what `Machine` says, and that `Completed` is told exactly where adding has ended and no
//! item stands.
#![tactic(auto)]

mod calls;
mod laws;
mod line;
mod rows;
mod state;
mod stored;

pub use calls::{BlockingCall, BlockingReply};
pub use laws::completed_is_told_exactly_where_no_item_can_come;
pub use state::BlockingState;

#[cfg(test)]
mod tests;
