//! Waiting for the end of a wait that stands in a shared object, with looks at a token or without.
//!
//! A call that waits begins by one entry. Where that leaves a wait, [`wait_out`] polls it until it has
//! its answer, and gives it up once a [`CancelToken`](cancel_flag::CancelToken) is set;
//! [`wait_out_without_token`] polls it alone. An object says by [`Waits`] how its waits are polled and
//! given up.
//!
//! It stands on `turn_lock` for what a call leaves of a pass, on `cancel_flag` for the token and for
//! the words of what looks at it leave, and on `pauses`. It promises upward which own entries a call that
//! waits adds, that each is one counted call, and which looks at the token it takes (`specs/Own.antt`). It
//! has no tests of its own, since a [`Waits`] wants a whole object: those of the objects above call both
//! loops.
#![tactic(auto)]

mod loops;
mod waits;

pub use loops::{wait_out, wait_out_without_token};
pub use waits::Waits;
