// The end of a command: its answer is written.
ghost use Rattle.std.specs.Prelude.{◌≡◌, ◌≤◌, ◌+◌, length, IsTrue};
ghost use Rattle.record_cli.specs.Answers.{shown_in};
ghost use Rattle.record_cli.specs.Leaves.{EndsWith, HasAsked, IsAnswered, shown_at, sink_state};
ghost use Rattle.record_cli.specs.Statuses.{is_written, write_faults};
ghost use Rattle.record_cli.specs.declared.finished.Shown.TheVariants.{Nothing};

use crate::answer::Answer;
use crate::finished::{Finished, Shown};
use crate::status::Status;
use crate::stopped::Stopped;
use crate::told::Told;
use ho_io::{Sink, Written, put_whole};

// Writes a text. The sink is asked once for room, for the whole of it.
fn write<K: Sink>(out: &mut K, status: Status, text: &[u8]) -> Status
    requires { IsTrue (is_written status) }
    ensures written { IsAnswered (record { status = status; text = text.now; shown = Nothing }) (K.taken out.old) (K.taken out.new) result }
    ensures read { result ≡ Status.ReadFault → ⊥ }
    ensures puts { K.puts out.new ≤ K.puts out.old + length text.now }
    ensures asked { HasAsked (record { status = status; text = text.now; shown = Nothing }) (K.reserves out.old) (K.reserves out.new) (K.asked out.new) result }
    ensures refused { result ≡ Status.NoMemory → K.puts out.new ≡ K.puts out.old }
    ensures later { K.faults out.old ≤ K.faults out.new }
    ensures faults { K.faults out.new ≡ write_faults (K.faults out.old) result }
{
    if out.reserve(text.len()).is_err() {
        return Status::NoMemory;
    }
    match put_whole(out, text) {
        Written::Whole => status,
        Written::Failed => Status::WriteFault,
    }
}

// What is shown at a status: nothing where the text was not written whole.
fn shown_at(status: Status, told: Told) -> Shown
    ensures { result ≡ shown_at status (shown_in told) }
{
    match status {
        Status::Done | Status::Ended => told.into_shown(),
        _ => Shown::Nothing,
    }
}

// Ends a command with nothing written.
fn unshown(status: Status) -> Finished
    ensures status { result.status ≡ status }
    ensures shown { result.shown ≡ Nothing }
{
    Finished {
        status,
        shown: Shown::Nothing,
    }
}

/// Writes what was computed: an answer's text, or the row that tells a refusal.
pub(crate) fn finish<K: Sink>(out: &mut K, computed: Result<Answer, Stopped>) -> Finished
    ensures ends { let told = sink_state K.taken K.puts K.reserves K.asked K.faults in EndsWith computed (told out.old) (told out.new) result.status result.shown }
    ensures unread { result.status ≡ Status.ReadFault → out.new ≡ out.old }
{
    match computed {
        Ok(Answer { status, told }) => {
            let status = write(out, status, told.bytes());
            Finished {
                status,
                shown: shown_at(status, told),
            }
        }
        Err(Stopped::Refused(row)) => {
            let status = write(out, row.status, row.text.bytes());
            Finished {
                status,
                shown: Shown::Nothing,
            }
        }
        Err(Stopped::ReadFault) => unshown(Status::ReadFault),
        Err(Stopped::NoMemory) => unshown(Status::NoMemory),
    }
}
