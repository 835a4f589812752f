// The command `plain`: a pipeline's file and a record file become the one-thread text.
ghost use Rattle.std.specs.Prelude.{◌≡◌, false, Some};
ghost use Rattle.record_cli.specs.Answers.{Computes, IsThis, has_read_fault};
ghost use Rattle.record_cli.specs.Commands.{Plain};
ghost use Rattle.record_cli.specs.Inputs.{plain_text};
ghost use Rattle.record_cli.specs.Leaves.{Comes};
ghost use Rattle.record_cli.specs.Reading.{shelf_state};

use crate::answer::Answer;
use crate::inputs::{Inputs, load_inputs};
use crate::stopped::Stopped;
use crate::told::Told;
use ho_base::Word;
use ho_io::Shelf;
use record_lang::one_thread_text;
use std::alloc::Global;

// The one-thread text.
fn plain_text(alloc: Global, inputs: Inputs) -> Result<Answer, Stopped>
    ensures text { Computes (IsThis (plain_text inputs)) result }
    ensures unread { has_read_fault result ≡ false }
{
    let status = inputs.end_status();
    let Inputs { pipeline, records } = inputs;
    let text = one_thread_text(alloc, &pipeline, records)?;
    Ok(Answer {
        status,
        told: Told::Text(text),
    })
}

/// What `plain PIPE FILE` answers.
pub(crate) fn plain<S: Shelf>(
    alloc: Global,
    shelf: &mut S,
    pipe: &Word,
    file: &Word,
) -> Result<Answer, Stopped>
    ensures { let state = shelf_state S.files S.given S.idle S.faults S.failing in Comes (Some (Plain pipe.now file.now)) (state shelf.old) (state shelf.new) result }
{
    let inputs = load_inputs(alloc, shelf, pipe, file)?;
    plain_text(alloc, inputs)
}
