//! The language of pipelines and record files, and the text that a run on one thread writes.
//!
//! A pipeline is one to eight stages, each fed by a joint, and perhaps a guard; a record file is CSV
//! without a header. `docs/FORMATS.md` tells both languages whole. This crate promises upward that a
//! pipeline's text is its meaning or the first refused line, a record file its rows or the first
//! refused row, a stage's answer the outcome of that stage, a report's text that of its outcomes and
//! dropped records, and the one-thread text that of the outcomes of all fed records. Its laws, each
//! the contract of a function without code, say what these definitions come to: outcomes come about
//! stage by stage, each fed record is told once, what is refused is the first that has a cause, and a
//! pipeline that is written as a text is read as itself. It stands on `ho_base`, on `text_rows` for
//! reading and writing the rows of texts and on `csv` for what a row and its reader and writer are,
//! on `itoa` for digits and on `smallvec` for fields, of which most are short.
//!
//! Want of memory is the one free answer: a `Field::new`, a `Stages` that takes no stage, a
//! `Report::push_dropped`, a `Report::text`, a `counts_text` or a `one_thread_text` that always gave it
//! would be proved, so tests call each with ample memory.
#![tactic(auto)]

mod causes;
mod drafts;
mod fields;
mod laws;
mod lines;
mod numbers;
mod outcomes;
mod parsing;
mod pipelines;
mod records;
mod report_rows;
mod reports;
mod rows;
mod stages;
mod tallies;
mod texts;
mod words;

pub use fields::Field;
pub use laws::{
    each_fed_record_is_told_once, marks_tell_records, pipelines_are_read_back,
    refused_lines_are_first, refused_rows_are_first, stages_make_outcomes,
};
pub use outcomes::{Outcome, apply_stage};
pub use parsing::{SpecFault, parse_pipeline};
pub use pipelines::{Joint, Pipeline};
pub use records::{Record, Records};
pub use reports::{Dropped, Report};
pub use rows::{InputFault, read_records};
pub use stages::Stages;
pub use text_rows::row_line;
pub use texts::{FedRows, counts_text, one_thread_text, rows_to_feed};

#[cfg(test)]
mod tests;
