// The command `drive`: a script's file becomes the history of a run of its callers.
ghost use Rattle.std.specs.Prelude.{◌≡◌, false, Some};
ghost use Rattle.record_cli.specs.Answers.{Computes, has_read_fault};
ghost use Rattle.record_cli.specs.Check.{IsPlayed};
ghost use Rattle.record_cli.specs.Commands.{Drive};
ghost use Rattle.record_cli.specs.Leaves.{Comes};
ghost use Rattle.record_cli.specs.Reading.{shelf_state};

use crate::answer::Answer;
use crate::check::load_script;
use crate::status::Status;
use crate::stopped::Stopped;
use crate::told::Told;
use drive_kit::{Script, drive_script, history_text};
use ho_base::Word;
use ho_io::{Gate, Shelf};
use std::alloc::Global;
use std::sync::Wait;
use std::thread::Threads;

// Plays a script.
fn play<G: Gate, R: Wait + Threads + Sync>(
    rt: &R,
    alloc: Global,
    script: &Script,
    gate: &G,
) -> Result<Answer, Stopped>
    ensures played { Computes (IsPlayed script.now) result }
    ensures unread { has_read_fault result ≡ false }
{
    let (history, pass) = drive_script(rt, alloc, script, gate)?;
    let text = history_text(alloc, &history)?;
    Ok(Answer {
        status: Status::Done,
        told: Told::Driven(text, pass),
    })
}

/// What `drive SCRIPT` answers.
pub(crate) fn drive<S: Shelf, G: Gate, R: Wait + Threads + Sync>(
    rt: &R,
    alloc: Global,
    shelf: &mut S,
    script: &Word,
    gate: &G,
) -> Result<Answer, Stopped>
    ensures { let state = shelf_state S.files S.given S.idle S.faults S.failing in Comes (Some (Drive script.now)) (state shelf.old) (state shelf.new) result }
{
    let script = load_script(alloc, shelf, script)?;
    play(rt, alloc, &script, gate)
}
