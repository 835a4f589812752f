//! Blocking collections that up to 64 callers share, each call one entry of one legal history.
//!
//! A [`BlockingCollection`] keeps its items first in first out, last in first out, or in a list for
//! each caller, with a bound or none. A caller makes any call by its pass, or hands the pass to a
//! [`Member`], which has the calls of .NET's `BlockingCollection<T>`; its [`add`](Member::add) and
//! [`take`](Member::take) try again until there is room or an item, adding has ended, or their token
//! asks them to stop. [`try_add_any`], [`add_any`], [`try_take_any`] and [`take_any`] go over several
//! collections.
//!
//! Single calls take constant time, but for a take from another caller's list, which looks for the first
//! that has an item, and a snapshot, which is linear.
//!
//! Want of memory is the one answer that is left free, and only of a maker, of a snapshot, and of an
//! add without a bound or to a bag. One that always gave it would be proved, so tests show that each
//! succeeds.
//!
//! It stands on `blocking_core` for the machine, on `turn_lock` for the sharing and on `cancel_flag`
//! for the tokens and for the words of what looks at them leave. It promises upward that each single call
//! adds to what its pass has seen entries of other callers and then its own entry; which calls the ones
//! that try again have made, with which replies, how they are counted and how often the token was looked
//! at; and that all that is seen is legal for the collection.
#![tactic(auto)]

mod any_add;
mod any_take;
mod collection;
mod member;
mod news;
mod singles;
mod waits;

// what the calls name of the crates below, so that a client lists none of these
pub use any_add::{AnyAdd, add_any, try_add_any};
pub use any_take::{AnyTake, take_any, try_take_any};
pub use blocking_core::{BlockingCall, BlockingReply};
pub use cancel_flag::CancelToken;
pub use collection::BlockingCollection;
pub use ho_base::{Item, Marked, NoMemory, Receipt, Unpaid};
pub use ho_model::{Items, Store};
pub use member::Member;
pub use singles::{AddReply, TakeReply};
pub use turn_lock::Pass;

#[cfg(test)]
mod tests;
