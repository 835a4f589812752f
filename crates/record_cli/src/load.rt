// The bytes of a command's files.
ghost use Rattle.std.specs.Prelude.{◌<◌, ◌^◌, IfSome};
ghost use Rattle.record_cli.specs.Answers.{Gives, file_of, has_read_fault};
ghost use Rattle.record_cli.specs.Reading.{Fetches, OneFile, shelf_state};

use crate::rows::{missing, too_large};
use crate::stopped::Stopped;
use ho_base::{Text, Word};
use ho_io::{Loaded, Shelf, fetch_whole};
use std::alloc::Global;

/// The bytes of a file, at most as many as the limit.
pub(crate) fn load<S: Shelf>(
    alloc: Global,
    shelf: &mut S,
    name: &Word,
    limit: usize,
) -> Result<Text, Stopped>
    requires { limit < 2 ^ 32 }
    ensures fetches { let state = shelf_state S.files S.given S.idle S.faults S.failing in Fetches (OneFile name.now limit) (state shelf.old) (state shelf.new) (has_read_fault result) }
    ensures loaded { IfSome (S.files shelf.old) (λ files. Gives (file_of limit name.now (files name.now)) result) }
{
    match fetch_whole(alloc, shelf, name, limit) {
        Loaded::Whole(bytes) => Ok(Text::from_vec(bytes)),
        Loaded::TooLarge => Err(too_large(alloc, name)),
        Loaded::Missing => Err(missing(alloc, name)),
        Loaded::Failed => Err(Stopped::ReadFault),
        Loaded::NoMemory => Err(Stopped::NoMemory),
    }
}
