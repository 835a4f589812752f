// Judges a history by playing it.
ghost use Rattle.std.specs.Prelude.{IfOk};
ghost use Rattle.ho_model.specs.Written.{history_of};
ghost use Rattle.ho_model.specs.Verdicts.{IsVerdict};

mod bag;
mod begins;
mod blocking;
mod caller_lines;
mod channel;
mod line;
mod plain;
mod queue;
mod replies;
mod standing;
mod tried;
mod waits;

use crate::histories::{Entry, Verdict};
use crate::objects::Object;
use ho_base::NoMemory;
use plain::Plain;
use std::alloc::Global;

/// Judges a history of an object, from the object's state before its first call: whether it is legal,
/// or else which entry is the first that the object refuses.
///
/// Any history of any object is judged, also one with callers of 64 and more, faults above 65,535 and
/// calls that the object does not have, and an object without room. Items have the priority of a
/// `u64`: a thousand numbers share one.
///
/// Takes time linear in the history and, for each entry, in the items and waits that stand then, and
/// memory for those. Want of memory is answered at any entry, and leaves nothing behind.
pub fn replay(alloc: Global, object: &Object, history: &[Entry]) -> Result<Verdict, NoMemory>
    ensures { IfOk result (λ verdict. IsVerdict object.now (history_of object.now history.now) verdict) }
{
    let mut plain = Plain::new(alloc, object)?;
    for (i, entry) in history.iter().enumerate() {
        if !plain.accepts(alloc, object, entry)? {
            return Ok(Verdict::IllegalAt { entry: i as u64 });
        }
    }
    Ok(Verdict::Legal)
}

#[cfg(test)]
mod tests;
