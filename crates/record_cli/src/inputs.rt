// The files of `plain` and `run`: a pipeline's, and a record file.
ghost use Rattle.std.specs.Prelude.{◌≡◌, false, IfSome};
ghost use Rattle.record_cli.specs.Answers.{Gives, has_read_fault};
ghost use Rattle.record_cli.specs.Inputs.{end_status, inputs_of, inputs_reading, pipeline_of, records_of};
ghost use Rattle.record_cli.specs.Reading.{Fetches, shelf_state};

use crate::load::load;
use crate::rows::{refused_place, refused_row, too_large};
use crate::status::Status;
use crate::stopped::Stopped;
use ho_base::Word;
use ho_io::Shelf;
use record_lang::{InputFault, Pipeline, Records, SpecFault, parse_pipeline, read_records};
use std::alloc::Global;

/// The most bytes of a pipeline's file.
const MAX_PIPELINE: usize = 65_536;

/// The most bytes of a record file.
const MAX_RECORDS: usize = 16_777_216;

/// A pipeline, and the records that are fed into it.
#[derive(Drop)]
pub(crate) struct Inputs {
    pub pipeline: Pipeline,
    pub records: Records,
}

impl Inputs {
    /// The status of a run that goes to its end.
    pub(crate) fn end_status(&self) -> Status
        ensures { result ≡ end_status self.now }
    {
        if self.pipeline.stops(&self.records) {
            Status::Ended
        } else {
            Status::Done
        }
    }
}

// The pipeline that a text means.
fn pipeline_in(alloc: Global, name: &Word, text: &[u8]) -> Result<Pipeline, Stopped>
    ensures given { Gives (pipeline_of name.now text.now) result }
    ensures unread { has_read_fault result ≡ false }
{
    match parse_pipeline(alloc, text) {
        Ok(pipeline) => Ok(pipeline),
        Err(SpecFault::Refused { place, cause }) => Err(refused_place(alloc, name, place, cause)),
        Err(SpecFault::NoMemory) => Err(Stopped::NoMemory),
    }
}

// The records of a file's bytes.
fn records_in(alloc: Global, name: &Word, bytes: &[u8]) -> Result<Records, Stopped>
    ensures given { Gives (records_of name.now bytes.now) result }
    ensures unread { has_read_fault result ≡ false }
{
    match read_records(alloc, bytes) {
        Ok(records) => Ok(records),
        Err(InputFault::Refused { row, cause }) => Err(refused_row(alloc, row, cause)),
        Err(InputFault::TooManyRows) => Err(too_large(alloc, name)),
        Err(InputFault::NoMemory) => Err(Stopped::NoMemory),
    }
}

/// The pipeline and the records of two files. The record file is fetched only once the pipeline is read
/// and not refused.
pub(crate) fn load_inputs<S: Shelf>(
    alloc: Global,
    shelf: &mut S,
    pipe: &Word,
    file: &Word,
) -> Result<Inputs, Stopped>
    ensures fetches { let state = shelf_state S.files S.given S.idle S.faults S.failing in Fetches (inputs_reading pipe.now file.now) (state shelf.old) (state shelf.new) (has_read_fault result) }
    ensures given { IfSome (S.files shelf.old) (λ files. Gives (inputs_of files pipe.now file.now) result) }
{
    let text = load(alloc, shelf, pipe, MAX_PIPELINE)?;
    let pipeline = pipeline_in(alloc, pipe, text.bytes())?;
    let bytes = load(alloc, shelf, file, MAX_RECORDS)?;
    let records = records_in(alloc, file, bytes.bytes())?;
    Ok(Inputs { pipeline, records })
}
