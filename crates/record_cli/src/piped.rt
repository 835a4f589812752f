// The commands `run` and `made`: a pipeline on many threads, over the records of a file or made ones.
ghost use Rattle.std.specs.Prelude.{◌≡◌, false, IsTrue, Some};
ghost use Rattle.record_cli.specs.Answers.{Computes, answer_in, has_read_fault};
ghost use Rattle.record_cli.specs.Commands.{IsCrewSize, IsSeed, Made, Run};
ghost use Rattle.record_cli.specs.Leaves.{Comes};
ghost use Rattle.record_cli.specs.Reading.{shelf_state};
ghost use Rattle.record_cli.specs.Statuses.{is_written};
ghost use Rattle.record_cli.specs.Tasks.{IsMadeRun, IsRun};
ghost use Rattle.record_cli.specs.declared.finished.Shown.TheVariants as show;

use crate::answer::Answer;
use crate::inputs::{Inputs, load_inputs};
use crate::status::Status;
use crate::stopped::Stopped;
use crate::told::Told;
use ho_base::Word;
use ho_io::{Gate, Shelf};
use stage_pipeline::{Ran, made_text, run_pipeline};
use std::alloc::Global;
use std::sync::Wait;
use std::thread::Threads;

// What is told of a run.
fn answer_of(status: Status, ran: Ran) -> Answer
    requires { IsTrue (is_written status) }
    ensures { answer_in result ≡ record { status = status; text = ran.text; shown = show.Ran ran } }
{
    Answer {
        status,
        told: Told::Ran(ran),
    }
}

// Runs a pipeline over records.
fn run_inputs<G: Gate, R: Wait + Threads + Sync>(
    rt: &R,
    alloc: Global,
    inputs: Inputs,
    workers: u32,
    gate: &G,
) -> Result<Answer, Stopped>
    requires { IsCrewSize workers }
    ensures ran { Computes (IsRun workers inputs) result }
    ensures unread { has_read_fault result ≡ false }
{
    let status = inputs.end_status();
    let Inputs { pipeline, records } = inputs;
    let ran = run_pipeline(rt, alloc, &pipeline, records, workers, gate)?;
    Ok(answer_of(status, ran))
}

/// What `run PIPE FILE WORKERS` answers.
pub(crate) fn run_files<S: Shelf, G: Gate, R: Wait + Threads + Sync>(
    rt: &R,
    alloc: Global,
    shelf: &mut S,
    pipe: &Word,
    file: &Word,
    workers: u32,
    gate: &G,
) -> Result<Answer, Stopped>
    requires { IsCrewSize workers }
    ensures { let state = shelf_state S.files S.given S.idle S.faults S.failing in Comes (Some (Run pipe.now file.now workers)) (state shelf.old) (state shelf.new) result }
{
    let inputs = load_inputs(alloc, shelf, pipe, file)?;
    run_inputs(rt, alloc, inputs, workers, gate)
}

/// What `made COUNT SEED WORKERS` answers.
pub(crate) fn run_made<G: Gate, R: Wait + Threads + Sync>(
    rt: &R,
    alloc: Global,
    count: u32,
    seed: u32,
    workers: u32,
    gate: &G,
) -> Result<Answer, Stopped>
    requires seed { IsSeed count seed }
    requires workers { IsCrewSize workers }
    ensures ran { Computes (IsMadeRun count seed workers) result }
    ensures unread { has_read_fault result ≡ false }
{
    let ran = made_text(rt, alloc, count, seed, workers, gate)?;
    Ok(answer_of(Status::Done, ran))
}
