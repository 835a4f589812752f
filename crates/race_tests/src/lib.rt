//! Tests with callers that share each of the structures, most of them in threads of their own, and
//! nothing else.
//!
//! They stand above all of the crates that they call, so that those are proved once and without them, and
//! on `races` for what such tests have in common. It promises nothing upward.
#![tactic(auto)]

#[cfg(test)]
mod any_calls;
#[cfg(test)]
mod bag_notes;
#[cfg(test)]
mod bag_once;
#[cfg(test)]
mod bags;
#[cfg(test)]
mod channel_calls;
#[cfg(test)]
mod channel_waits;
#[cfg(test)]
mod collections;
#[cfg(test)]
mod dropped_passes;
#[cfg(test)]
mod lags;
#[cfg(test)]
mod queue_once;
#[cfg(test)]
mod queues;
#[cfg(test)]
mod splits;
#[cfg(test)]
mod wakes;
