//! Which records reach each joint of a pipeline whose joints may drop, and what is then told of a run.
//!
//! Each function does nothing; its contract is a law that the check proves. The laws say what it comes
//! to that at every joint each record that came was written once, that of what was written each was
//! taken or dropped once, and that of what was taken each went on or ended at the stage behind the
//! joint, once: then the numbers that the joints dropped tell all, whatever order things came in.
//!
//! - `specs/Reports.antt`: which records reach a joint, which it drops and leaves, and what a report
//!   tells.
//! - `specs/Through.antt`: what passes one joint and its stage, and all joints, by weight.
//! - `specs/Laws.antt`: the laws.
//! - `specs/Rows.antt`: worked flows, which `the_worked_rows_are_told` computes.
//!
//! It stands on `record_lang` for records, their marks and their outcomes. It promises upward that the
//! written, dropped and taken marks of each joint are those of the records that reach it, and that the
//! outcomes that ended at the stages are the one-thread outcomes of all records that no joint dropped.
//!
//! The crate has no must-fail edits: its functions have no code, so that no edit of it can be refused.
#![tactic(auto)]

mod laws;
mod rows;

pub use laws::{dropped_are_fed, outcomes_are_kept, records_reach_joints};
pub use rows::the_worked_rows_are_told;
