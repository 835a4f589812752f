// The top call of the commands that do not wait.
ghost use Rattle.std.specs.Prelude.{◌≡◌, false};
ghost use Rattle.record_cli.specs.Commands.{command_of, is_reading, waits_for};
ghost use Rattle.record_cli.specs.Leaves.{Comes, Leaves, sink_state};
ghost use Rattle.record_cli.specs.Reading.{shelf_state};
ghost use Rattle.record_cli.specs.declared.finished.Shown.TheVariants.{Nothing};

use crate::answer::Answer;
use crate::check::check;
use crate::commands::{Command, command_of};
use crate::plain::plain;
use crate::rows::usage;
use crate::status::Status;
use crate::stopped::Stopped;
use crate::writing::finish;
use ho_base::Word;
use ho_io::{Shelf, Sink};
use std::alloc::Global;

// What the words' command answers.
fn compute<S: Shelf>(alloc: Global, words: &[Word], shelf: &mut S) -> Result<Answer, Stopped>
    requires { waits_for (command_of words.now) ≡ false }
    ensures computed { let state = shelf_state S.files S.given S.idle S.faults S.failing in Comes (command_of words.now) (state shelf.old) (state shelf.new) result }
    ensures not_read { is_reading (command_of words.now) ≡ false → shelf.new ≡ shelf.old }
{
    match command_of(words) {
        Some(Command::Plain { pipe, file }) => plain(alloc, shelf, pipe, file),
        Some(Command::Check { script, history }) => check(alloc, shelf, script, history),
        _ => usage(alloc),
    }
}

/// Runs a command that does not wait for other threads, and answers its status. It always returns.
///
/// Everything is computed before the first byte is written, and the sink is asked once for room, for the
/// whole text. So the sink has taken the answer's whole text, or a front of it where a put failed, or
/// nothing where a fetch failed or there was no memory. `Leaves` says it whole: which answer it is for the
/// words and files, how much is read and put at most, which file a failed fetch was of, and which status
/// counts a fault. It speaks of files where the shelf tells them, and of bytes taken where the sink does.
///
/// The second file is read only once the first is read and not refused. Of a file at most one byte
/// more than its limit is read. The first fetch or put that fails ends the call with its status.
pub fn run_plain<S: Shelf, K: Sink>(
    alloc: Global,
    words: &[Word],
    shelf: &mut S,
    out: &mut K,
) -> Status
    requires { waits_for (command_of words.now) ≡ false }

    // What is read and written, and with which status.
    ensures leaves { let at = shelf_state S.files S.given S.idle S.faults S.failing in
        let told = sink_state K.taken K.puts K.reserves K.asked K.faults in
        Leaves (command_of words.now) (at shelf.old) (at shelf.new) (told out.old) (told out.new) result Nothing }

    // Without a file nothing is read, and at a read fault nothing is written.
    ensures not_read { is_reading (command_of words.now) ≡ false → shelf.new ≡ shelf.old }
    ensures unread { result ≡ Status.ReadFault → out.new ≡ out.old }
{
    let computed = compute(alloc, words, shelf);
    finish(out, computed).status
}
