// What is left of each part while a history is woven.
ghost use Rattle.std.specs.Prelude.{◌≡◌, ◌<◌, ◌∷◌, [], length, IfOk};
ghost use Rattle.weave.specs.Cursors.{parts_left, part_left, HasNext, TakesNext};

use crate::made::{Made, entry_of};
use crate::parts::Part;
use ho_base::NoMemory;
use ho_model::Entry;
use std::alloc::Global;

/// The calls of a caller that are not in the history yet.
#[derive(Clone, Copy)]
pub(crate) struct Cursor<'a> {
    pub(crate) caller: u32,
    pub(crate) left: &'a [Made],
}

// All of each part.
pub(crate) fn whole_parts<'a>(alloc: Global, parts: &'a [Part]) -> Result<Vec<Cursor<'a>>, NoMemory>
    ensures { IfOk result (λ v. parts_left v.items ≡ parts.now) }
{
    let mut cursors = Vec::with_capacity(alloc, parts.len())?;
    for part in parts {
        let cursor = Cursor {
            caller: part.caller(),
            left: part.made(),
        };
        cursors.push(cursor)?;
    }
    Ok(cursors)
}

// Takes the next call.
fn take_first(alloc: Global, cursor: &mut Cursor<'_>) -> Result<Entry, NoMemory>
    requires { 0 < length cursor.old.left.now }
    ensures { IfOk result (λ e. TakesNext (part_left cursor.old ∷ []) 0 e (part_left cursor.new ∷ [])) }
{
    let entry = entry_of(alloc, cursor.caller, &cursor.left[0])?;
    cursor.left = &cursor.left[1..];
    Ok(entry)
}

// Takes the next call of the part at an index.
pub(crate) fn take_next(
    alloc: Global,
    cursors: &mut Vec<Cursor<'_>>,
    i: usize,
) -> Result<Entry, NoMemory>
    requires { HasNext (parts_left cursors.old.items) i }
    ensures { IfOk result (λ e. TakesNext (parts_left cursors.old.items) i e (parts_left cursors.new.items)) }
{
    take_first(alloc, &mut cursors[i])
}
