//! Pipelines that run on many threads: a feeder, a crew of workers for each stage, and between each two a
//! channel, which is the joint that the pipeline names.
//!
//! - [`run_pipeline`] runs a pipeline over records, and hands back its text and the whole pass of each joint
//!   ([`Ran`], `specs/Runs.antt`). [`made_text`] does so for records that [`made_records`] makes from a
//!   number, and tells their sums (`specs/Made.antt`).
//! - [`a_joint_adds_up`] is the law of one joint, over the own entries of the pass that its writers joined
//!   and of that which its readers joined (`specs/Joints.antt`).
//!
//! Within, from below: `workers.rt` has one worker between two joints, `seats.rt` all workers of a stage
//! side by side, `crew.rt` what takes back what they leave and only then completes the next joint,
//! `feeder.rt` what feeds the first joint, `flow.rt` all of these side by side, `starts.rt` the joints and
//! their passes, `meeting.rt` what joins both passes of each joint, `meetings.rt` the law by which what they
//! have seen tells the run, `reports.rt` and `summaries.rt` the texts. What a thread promises is equations of
//! weights over its passes' own entries, which add up where passes are joined, whatever came first.
//!
//! It stands on `channel_wait` for reads and writes that wait, on `ho_io` for the gate, on `record_lang`
//! for records and pipelines, on `passes` for what a joined pass has seen, on `channel_flow` for the
//! laws of items in channels, and on `joint_reports` for which records reach a joint. It promises upward that
//! the text is the one-thread text where no joint may drop, and else that of the report which the joints
//! tell; that the whole pass of each joint shows just the records that reach it, each written once, and
//! dropped or taken once, and no other calls but polls of waits that were begun, each ended, as many ends as
//! workers and one completion; and which records a seed makes.
//!
//! No contract says that workers run side by side, that they pass the gate before each call on a joint
//! and under which number, how often who waits polls, or that a run ends: tests show the first two for some
//! runs. A run is meant to end also where the system starts fewer threads than are asked for: a crew without
//! a thread comes last, so then nothing is fed, and the answer is want of memory. To see it, run a program
//! beside a library, loaded before the C library, whose `pthread_create` refuses one call or all from one on.
//!
//! That the premises of the law of one joint can be met is shown by `run_pipeline`, which proves them of
//! each joint that it hands back. Want of memory is the one free answer: a `run_pipeline`, `made_text` or
//! `made_records` that always gave it would be proved, so tests call each with ample memory.
#![tactic(auto)]

mod crew;
mod feeder;
mod flow;
mod gauge;
mod joints;
mod kits;
mod made;
mod meeting;
mod meetings;
mod reports;
mod runs;
mod seats;
mod shared;
mod sides;
mod starts;
mod summaries;
mod workers;

pub use joints::a_joint_adds_up;
pub use made::made_records;
pub use runs::{Ran, made_text, run_pipeline};

#[cfg(test)]
mod tests;
