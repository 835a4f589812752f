//! A turn lock: up to 64 callers share one machine, and each call is one entry of one history.
//!
//! In the field's words it is a ticket lock with a try, and its promise on calls is linearizability
//! without the order in real time. A [`Shared`] has a [`Machine`](ho_model::Machine) of any object.
//! A caller with a [`Pass`] gets the turn, lets the machine take its call, makes the entry and
//! gives the turn back. [`Shared::call`] waits for the turn, and [`Shared::try_call`] tries once.
//!
//! It stands on `atomic_table` for the words and the slot that threads share, on `passes` for what
//! all passes have in common, and on `ho_model` for machines and objects. It promises upward, for
//! any machine, that an answered call adds to what its pass has seen entries of other callers and
//! then its own entry; that every other answer adds entries of others alone; that what is seen is
//! always legal for the object; what each pass holds after a split or a join; and that a call which
//! returns was below the limit of calls. `Called` and `Attempted` of `specs/Calls.antt` are these
//! promises, whole, of a call and of a try; every layer above cites them.
//!
//! The rule of the shared words is in `specs/Rule.antt`, and `docs/TURN_LOCK.md` tells it with the
//! reason of each part. How long a call pauses between its tries, and what it looks at meanwhile,
//! promises nothing: other pauses and looks only cost time. Nor does what is told to those who sleep beside
//! an object: a call that told other news would be proved, and only time would show it. Who gets the turn, and
//! when, is not promised either.
#![tactic(auto)]

mod attempt;
mod gaining;
mod layout;
mod pass;
mod plays;
mod serving;
mod shared;
mod steps;
mod view;

pub use attempt::Attempt;
pub use pass::Pass;
pub use shared::Shared;
pub use view::Obstacle;

#[cfg(test)]
mod tests;
