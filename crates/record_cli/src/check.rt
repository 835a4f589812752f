// The command `check`: a script's file and a history's file become a verdict.
ghost use Rattle.std.specs.Prelude.{◌≡◌, false, IfSome, Some};
ghost use Rattle.drive_kit.specs.Histories.{history_in};
ghost use Rattle.record_cli.specs.Answers.{Computes, Gives, has_read_fault};
ghost use Rattle.record_cli.specs.Check.{IsJudged, judged_of, judged_reading, plan_in, plan_of, read_text, script_reading};
ghost use Rattle.record_cli.specs.Commands.{Check};
ghost use Rattle.record_cli.specs.Leaves.{Comes};
ghost use Rattle.record_cli.specs.Reading.{Fetches, shelf_state};

use crate::answer::Answer;
use crate::load::load;
use crate::rows::{refused_place, too_large, verdict_row};
use crate::stopped::Stopped;
use drive_kit::{Script, ScriptFault, check_history, parse_history, parse_script};
use ho_base::Word;
use ho_io::Shelf;
use ho_model::History;
use std::alloc::Global;

/// The most bytes of a script's file.
const MAX_SCRIPT: usize = 4_194_304;

/// The most bytes of a history's file.
const MAX_HISTORY: usize = 67_108_864;

/// A script, and a history that is judged beside it.
#[derive(Drop)]
pub(crate) struct Judged {
    pub script: Script,
    pub history: History,
}

// The script that a text means.
fn script_in(alloc: Global, name: &Word, text: &[u8]) -> Result<Script, Stopped>
    ensures given { Gives (plan_in name.now text.now) result }
    ensures unread { has_read_fault result ≡ false }
{
    match parse_script(alloc, text) {
        Ok(script) => Ok(script),
        Err(ScriptFault::Refused { row, cause }) => Err(refused_place(alloc, name, row, cause)),
        Err(ScriptFault::TooManyRows) => Err(too_large(alloc, name)),
        Err(ScriptFault::NoMemory) => Err(Stopped::NoMemory),
    }
}

// The history that a text means beside a script.
fn history_in(alloc: Global, script: &Script, name: &Word, text: &[u8]) -> Result<History, Stopped>
    ensures given { Gives (read_text name.now (history_in script.now.object text.now)) result }
    ensures unread { has_read_fault result ≡ false }
{
    match parse_history(alloc, script.object(), text) {
        Ok(history) => Ok(history),
        Err(ScriptFault::Refused { row, cause }) => Err(refused_place(alloc, name, row, cause)),
        Err(ScriptFault::TooManyRows) => Err(too_large(alloc, name)),
        Err(ScriptFault::NoMemory) => Err(Stopped::NoMemory),
    }
}

/// The script of a file.
pub(crate) fn load_script<S: Shelf>(
    alloc: Global,
    shelf: &mut S,
    script: &Word,
) -> Result<Script, Stopped>
    ensures fetches { let state = shelf_state S.files S.given S.idle S.faults S.failing in Fetches (script_reading script.now) (state shelf.old) (state shelf.new) (has_read_fault result) }
    ensures given { IfSome (S.files shelf.old) (λ files. Gives (plan_of files script.now) result) }
{
    let text = load(alloc, shelf, script, MAX_SCRIPT)?;
    script_in(alloc, script, text.bytes())
}

// The script and the history of two files. The history's is fetched only once the script is read and
// not refused.
fn load_judged<S: Shelf>(
    alloc: Global,
    shelf: &mut S,
    script: &Word,
    history: &Word,
) -> Result<Judged, Stopped>
    ensures fetches { let state = shelf_state S.files S.given S.idle S.faults S.failing in Fetches (judged_reading script.now history.now) (state shelf.old) (state shelf.new) (has_read_fault result) }
    ensures given { IfSome (S.files shelf.old) (λ files. Gives (judged_of files script.now history.now) result) }
{
    let text = load(alloc, shelf, script, MAX_SCRIPT)?;
    let script = script_in(alloc, script, text.bytes())?;
    let bytes = load(alloc, shelf, history, MAX_HISTORY)?;
    let history = history_in(alloc, &script, history, bytes.bytes())?;
    Ok(Judged { script, history })
}

// What a history is beside its script.
fn judge(alloc: Global, judged: &Judged) -> Result<Answer, Stopped>
    ensures verdict { Computes (IsJudged judged.now) result }
    ensures unread { has_read_fault result ≡ false }
{
    let told = check_history(alloc, &judged.script, &judged.history)?;
    verdict_row(alloc, told)
}

/// What `check SCRIPT HISTORY` answers.
pub(crate) fn check<S: Shelf>(
    alloc: Global,
    shelf: &mut S,
    script: &Word,
    history: &Word,
) -> Result<Answer, Stopped>
    ensures { let state = shelf_state S.files S.given S.idle S.faults S.failing in Comes (Some (Check script.now history.now)) (state shelf.old) (state shelf.new) result }
{
    let judged = load_judged(alloc, shelf, script, history)?;
    judge(alloc, &judged)
}
