//! What races of threads have in common, in tests and in measurements.
//!
//! A [`Race`] says what threads share and what each does; [`run`] gives each a pass of its own and has all
//! start together, at a [`StartLine`], so that their calls overlap. The numbers below a count are shared
//! out among those that hand them over ([`share`]); each thread adds up in a [`Tally`] what it met, and
//! [`Tally::below`] is what all together are to come to. A [`Countdown`] tells who is the last.
//!
//! It stands on `pauses`. It promises upward that shares begin at 0 and end at the count, each where the
//! one before ends, and that a tally of the numbers below a count has their sum. [`run`] makes of a race
//! only the calls that its trait allows: each thread has a pass of the object. Nothing is promised of how
//! threads run.
#![tactic(auto)]

mod line;
mod numbers;
mod race;

pub use line::{Countdown, StartLine, nanoseconds_since};
pub use numbers::{Tally, are_numbers_below, share};
pub use race::{Found, Race, RaceError, gathered, run};

#[cfg(test)]
mod tests;
