//! The calls on a bag of local lists, on a seat of its table.
//!
//! [`try_add`] and [`try_take`] are one try, [`add`] and [`take`] repeat it until it ends, [`count`] is
//! one step and [`snap`] holds all lists at once. Each begins and ends with a seat that keeps no list.
//!
//! It stands on `bag_rule`, whose steps the calls are made of, and on `pauses` for the time between
//! tries. It promises upward what each call leaves of the seat: one entry of its own behind entries of
//! others (`MadeEntry` of `specs/Seats.antt`), or none (`MadeNone`) with what the try has read of others
//! (`specs/Causes.antt`). An add and a take of the own last item take constant time, a take that steals
//! looks into each list at most once in a try, a snapshot is linear. Takes and counts want no memory.
#![tactic(auto)]

mod adds;
mod searches;
mod snaps;
mod takes;
mod waits;

pub use adds::{AddTry, try_add};
pub use snaps::{count, snap};
pub use takes::{TakeTry, try_take};
pub use waits::{add, take};

#[cfg(test)]
mod tests;
