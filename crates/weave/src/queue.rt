// A history of a queue by the receipts of its calls.
ghost use Rattle.std.specs.Prelude.{◌≡◌, List, IfOk};
ghost use Rattle.weave.specs.Parts.{OfDifferentCallers, Told};
ghost use Rattle.weave.specs.Queues.{IsOfQueue, IsWoven};
ghost use Rattle.weave.specs.Cursors.{parts_left, HasNext, TakesNext};
ghost use Rattle.weave.specs.Aheads.{aheads_of};

use crate::aheads::{Ahead, ahead_behind, all_aheads};
use crate::cursors::{Cursor, take_next, whole_parts};
use crate::least::least_free;
use crate::parts::Part;
use ho_base::NoMemory;
use ho_model::{Entry, History};
use std::alloc::Global;

// Takes the next call of the part at an index, and looks at what is ahead of it then.
fn take_turn(
    alloc: Global,
    cursors: &mut Vec<Cursor<'_>>,
    aheads: &mut Vec<Ahead>,
    i: usize,
) -> Result<Entry, NoMemory>
    requires next { HasNext (parts_left cursors.old.items) i }
    requires ahead { aheads.old.items ≡ aheads_of (parts_left cursors.old.items) }
    ensures takes { IfOk result (λ e. TakesNext (parts_left cursors.old.items) i e (parts_left cursors.new.items)) }
    ensures ahead { IfOk result (λ e. aheads.new.items ≡ aheads_of (parts_left cursors.new.items)) }
{
    let taken = cursors[i].left[0].receipt;
    let entry = take_next(alloc, cursors, i)?;
    aheads[i] = ahead_behind(aheads[i], taken, cursors[i].left);
    Ok(entry)
}

/// A legal history of a queue with so much room, which has just these parts and receipts, where there
/// is one, and where the parts are of different callers. Of other parts nothing is said.
///
/// It takes, again and again, among the callers whose next call has no call left that goes before it,
/// the least caller's next call. What goes before what is the relation of
/// [`every_order_that_keeps_the_relation_is_legal`].
///
/// Each turn compares the next call of each part with the first call left of each kind in each part: so
/// the time goes with the calls, and at worst with the square of the callers. Takes memory for the
/// history, and answers nothing but want of it.
///
/// [`every_order_that_keeps_the_relation_is_legal`]: crate::every_order_that_keeps_the_relation_is_legal
pub fn weave_queue(alloc: Global, room: u32, parts: &[Part]) -> Result<History, NoMemory>
    ensures { IfOk result (λ h. OfDifferentCallers parts.now → (told : List Told) → IsOfQueue room parts.now told → IsWoven room parts.now h) }
{
    let mut cursors = whole_parts(alloc, parts)?;
    let mut aheads = all_aheads(alloc, &cursors)?;
    let mut entries = Vec::new(alloc);
    'turns: while let Some(least) = least_free(room, &aheads, &cursors) {
        let entry = take_turn(alloc, &mut cursors, &mut aheads, least.index)?;
        entries.push(entry)?;
    }
    Ok(History::from_vec(entries))
}
