//! Scripts and histories: what their texts mean, whether a history is legal and whole, and scripts
//! played on shared objects.
//!
//! A script is an object and the calls that its callers make on it; a history is who called what, in
//! order, with the replies. `docs/FORMATS.md` tells both texts whole. This crate promises upward that
//! a script's text is its meaning, or the first refused row with the first of its causes; the same of
//! a history's text for an object; that the text of a history is its rows, one for each entry, from
//! which it is read back; and that a history beside a script is illegal at the first entry that the
//! object refuses, else lacking at the least caller whose calls are not those of its rows, with the
//! first place at which they differ, else legal. Playing a script gives a legal history with each
//! caller's calls, each once, in order, which the whole pass of the script's object shows. One table of
//! words for each kind of object, `specs/Calls.antt`, serves reading and writing.
//!
//! It stands on `ho_model` for calls, replies, entries, objects and the judge of histories, on
//! `text_rows` and `csv` for rows, on `ho_base` for numbers and texts, on `channels`,
//! `blocking_collection`, `concurrent_bag` and, for queues, `turn_lock` for the objects that scripts are
//! played on, on `passes` for what their passes have seen, and on `ho_io` for the gate before each call.
//! `weave` makes the history of what each caller made, by the receipts alone. Queues are played on behind a
//! turn, where receipts are places.
//!
//! Want of memory is the one free answer: a `parse_script`, a `parse_history`, a `history_text`, a
//! `check_history` or a `drive_script` that always gave it would be proved, so tests call each with
//! ample memory.
#![tactic(auto)]

mod answers;
mod callers;
mod calls;
mod causes;
mod check;
mod drive;
mod fields;
mod history_rows;
mod laws;
mod numbers;
mod objects;
mod replies;
mod script_rows;
mod scripts;
mod stands;
mod texts;

pub use causes::ScriptFault;
pub use check::{Checked, check_history};
pub use drive::drive_script;
pub use history_rows::parse_history;
pub use laws::texts_tell_histories;
pub use script_rows::parse_script;
pub use scripts::Script;
pub use stands::DrivenPass;
pub use texts::history_text;

#[cfg(test)]
mod tests;
