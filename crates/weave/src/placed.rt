// A history by the places of its calls.
ghost use Rattle.std.specs.Prelude.{◌≡◌, List, map, position, IfOk};
ghost use Rattle.weave.specs.Parts.{entry_told, OfDifferentCallers, Told};
ghost use Rattle.weave.specs.Places.{IsPlaced};
ghost use Rattle.weave.specs.Cursors.{begins_at, is_place};

use crate::cursors::{Cursor, take_next, whole_parts};
use crate::parts::Part;
use ho_base::{NoMemory, Receipt};
use ho_model::History;
use std::alloc::Global;

fn has_place(receipt: Receipt, place: u64) -> bool
    ensures { result ≡ is_place place receipt }
{
    match receipt {
        Receipt::Place { number } => number == place,
        _ => false,
    }
}

// Whether the next call has this place.
fn begins(cursor: &Cursor<'_>, place: u64) -> bool
    ensures { result ≡ begins_at place cursor.now.left.now }
{
    if cursor.left.is_empty() {
        return false;
    }
    has_place(cursor.left[0].receipt, place)
}

// The part whose next call has this place.
fn part_with_place(cursors: &[Cursor<'_>], place: u64) -> Option<usize>
    ensures { result ≡ position (λ c. begins_at place c.left.now) cursors.now }
{
    cursors.iter().position(|cursor| begins(cursor, place))
}

/// The one history that has just these parts and places, where there is one: where the parts are of
/// different callers, and their receipts are the numbers below the count of calls, each once, rising
/// within each part. Of other parts nothing is said.
///
/// Each turn looks at the next call of each part: so the time goes with the calls times the callers.
/// Takes memory for the history, and answers nothing but want of it.
pub fn weave_placed(alloc: Global, parts: &[Part]) -> Result<History, NoMemory>
    ensures { IfOk result (λ h. OfDifferentCallers parts.now → (told : List Told) → IsPlaced parts.now told → h ≡ map entry_told told) }
{
    let mut cursors = whole_parts(alloc, parts)?;
    let mut entries = Vec::new(alloc);
    'turns: while let Some(i) = part_with_place(&cursors, entries.len() as u64) {
        let entry = take_next(alloc, &mut cursors, i)?;
        entries.push(entry)?;
    }
    Ok(History::from_vec(entries))
}
