//! The rows of CSV texts, read and written.
//!
//! Every text of the program is rows: record files, outputs, scripts, histories. This crate promises
//! upward that a reader gives the rows of its bytes one after another, each once and none left out,
//! and that what a writer has written is the text of its rows, with quotes where a byte calls for
//! them and nowhere else; and that a text of rows is read back as these rows. It stands on `csv` for
//! both, on `itoa` for digits and on `ho_base`.
//!
//! Want of memory is the one free answer: a call that always gave it would be proved, so tests call
//! each with ample memory. After it a row, a reader or a writer is of no more use.
#![tactic(auto)]

mod reading;
mod writing;

pub use reading::{field_of, new_reader, next_row, texts_tell_rows};
pub use writing::{
    finish_lines, new_lines, push_bytes, push_number, put_fields, put_row, row_line, start_row,
};

#[cfg(test)]
mod tests;
