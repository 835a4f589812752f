//! The program: takes the words of the command line, runs the command that they name over real files
//! and standard output, and exits with the number of its status.
//!
//! [`top::run_plain`] runs the commands that do not wait for other threads, and always returns;
//! [`run::run`] runs all, and hands those on. Both promise the exact bytes and status for the words and
//! files, where shelf and sink tell them, in one record (`specs/Leaves.antt`): also how much is read and
//! put at most, that room is asked for once, for the whole text, that each fault is told by its status and
//! no other status comes with one, and that nothing is written after a read fault or want of memory. Where
//! a script was played, or a pipeline run on many threads, and the text written whole, `run` shows the whole
//! passes of the objects that it stood on, and else nothing. Where no joint may drop, `run PIPE FILE
//! WORKERS` writes what `plain PIPE FILE` writes. `docs/FORMATS.md` tells commands, statuses and texts.
//!
//! Where standard error is a terminal and threads are at work for more than a second, `progress` tells there
//! how far they are. It is a gate and a sink of the program's own, so it stands under the same contracts:
//! what it shows, none of them says.
//!
//! The crate stands on `record_lang` for what a pipeline and records mean, on `drive_kit` for scripts,
//! their callers and the verdict on a history, on `stage_pipeline` for runs on many threads, on
//! `text_rows` for rows as they are written, on `ho_io` for files, output and gates, and on `ho_base` for
//! words.
//!
//! No contract can say which words the system gives: `take_words` promises nothing, and the stored run
//! shows that it takes them.
#![tactic(auto)]

mod answer;
mod check;
mod commands;
mod drive;
mod finished;
mod inputs;
mod load;
mod piped;
mod plain;
mod progress;
mod rows;
mod run;
mod status;
mod stopped;
mod told;
mod top;
mod writing;

use crate::status::Status;
use ho_base::Word;
use ho_io::{DiskShelf, OpenGate, TerminalSink};
use std::env;
use std::io::{ErrorKind, IsTerminal};
use std::process::ExitCode;

/// The exit status where the words can't be taken from the system, as where one is no text.
const NO_WORDS: u8 = 11;

// The words of the command line, or the exit status where they can't be taken.
fn take_words(rt: &HostRuntime) -> Result<Vec<Word>, u8> {
    let arguments = match env::args(rt) {
        Ok(arguments) => arguments,
        Err(error) if error.kind() == ErrorKind::OutOfMemory => {
            return Err(Status::NoMemory.number());
        }
        Err(_) => return Err(NO_WORDS),
    };
    let mut words = Vec::new(rt.alloc());
    for argument in arguments.skip(1) {
        let Ok(word) = Word::new(rt.alloc(), argument.as_bytes()) else {
            return Err(Status::NoMemory.number());
        };
        if words.push(word).is_err() {
            return Err(Status::NoMemory.number());
        }
    }
    Ok(words)
}

fn main(rt: HostRuntime) -> ExitCode {
    let words = match take_words(&rt) {
        Ok(words) => words,
        Err(status) => return ExitCode::from(status),
    };
    let mut shelf = DiskShelf::new(&rt);
    let mut out = TerminalSink::new(&rt);
    let status = if !commands::waits(&words) {
        top::run_plain(rt.alloc(), &words, &mut shelf, &mut out)
    } else if rt.stderr().is_terminal() {
        progress::run_telling(&rt, rt.alloc(), &words, &mut shelf, out)
    } else {
        run::run(&rt, rt.alloc(), &words, &mut shelf, &mut out, &OpenGate).status
    };
    ExitCode::from(status.number())
}

#[cfg(test)]
mod tests;
