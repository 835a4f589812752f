// The top call of all commands.
ghost use Rattle.std.specs.Prelude.{◌≡◌, false, true};
ghost use Rattle.record_cli.specs.Commands.{command_of, is_reading, waits_for};
ghost use Rattle.record_cli.specs.Leaves.{Comes, Leaves, sink_state};
ghost use Rattle.record_cli.specs.Reading.{shelf_state};

use crate::answer::Answer;
use crate::commands::{Command, command_of, waits};
use crate::drive::drive;
use crate::finished::{Finished, Shown};
use crate::piped::{run_files, run_made};
use crate::rows::usage;
use crate::status::Status;
use crate::stopped::Stopped;
use crate::top::run_plain;
use crate::writing::finish;
use ho_base::Word;
use ho_io::{Gate, Shelf, Sink};
use std::alloc::Global;
use std::sync::Wait;
use std::thread::Threads;

// What the words' command answers, which waits for other threads.
fn compute_waiting<S: Shelf, G: Gate, R: Wait + Threads + Sync>(
    rt: &R,
    alloc: Global,
    words: &[Word],
    shelf: &mut S,
    gate: &G,
) -> Result<Answer, Stopped>
    requires { waits_for (command_of words.now) ≡ true }
    ensures computed { let state = shelf_state S.files S.given S.idle S.faults S.failing in Comes (command_of words.now) (state shelf.old) (state shelf.new) result }
    ensures not_read { is_reading (command_of words.now) ≡ false → shelf.new ≡ shelf.old }
{
    match command_of(words) {
        Some(
            Command::Run {
                pipe,
                file,
                workers,
            },
        ) => { run_files(rt, alloc, shelf, pipe, file, workers, gate) }
        Some(Command::Drive { script }) => drive(rt, alloc, shelf, script, gate),
        Some(
            Command::Made {
                count,
                seed,
                workers,
            },
        ) => { run_made(rt, alloc, count, seed, workers, gate) }
        _ => usage(alloc),
    }
}

/// Runs the command that the words name. A command that does not wait for other threads goes to
/// [`run_plain`], and then the call returns.
///
/// Everything is computed before the first byte is written, and the sink is asked once for room, for the
/// whole text. So the sink has taken the answer's whole text, or a front of it where a put failed, or
/// nothing where a fetch failed or there was no memory. `Leaves` says it whole: which answer it is for the
/// words and files, how much is read and put at most, which file a failed fetch was of, and which status
/// counts a fault. It speaks of files where the shelf tells them, and of bytes taken where the sink does.
///
/// With `drive` the callers of the script are threads, and the gate is told each of their calls before
/// it is made. With `run` and `made` each stage of the pipeline has so many threads, and one more feeds the
/// records; the gate is told each of the workers' calls on a joint. Where the text was written whole, what
/// was played or run is shown: the whole pass of the script's object, which has seen exactly this history,
/// or the run, with this text, and the whole pass of each joint. Where no joint may drop, `run` writes what
/// `plain` writes for the same files, at the same status.
pub fn run<S: Shelf, K: Sink, G: Gate, R: Wait + Threads + Sync>(
    rt: &R,
    alloc: Global,
    words: &[Word],
    shelf: &mut S,
    out: &mut K,
    gate: &G,
) -> Finished
    // What is read, written and shown, and with which status.
    ensures leaves { let at = shelf_state S.files S.given S.idle S.faults S.failing in
        let told = sink_state K.taken K.puts K.reserves K.asked K.faults in
        Leaves (command_of words.now) (at shelf.old) (at shelf.new) (told out.old) (told out.new) result.status result.shown }

    // Without a file nothing is read, and at a read fault nothing is written.
    ensures not_read { is_reading (command_of words.now) ≡ false → shelf.new ≡ shelf.old }
    ensures unread { result.status ≡ Status.ReadFault → out.new ≡ out.old }
{
    if !waits(words) {
        let status = run_plain(alloc, words, shelf, out);
        return Finished {
            status,
            shown: Shown::Nothing,
        };
    }
    let computed = compute_waiting(rt, alloc, words, shelf, gate);
    finish(out, computed)
}
