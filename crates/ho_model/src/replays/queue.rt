// A queue that is played.
ghost use Rattle.std.specs.Prelude.{◌≡◌, false, IfOk};
ghost use Rattle.ho_base.specs.Marks.{number_priority};
ghost use Rattle.ho_model.specs.Queue.{queue_answer};
ghost use Rattle.ho_model.specs.Objects.{QueueState, stepped};
ghost use Rattle.ho_model.specs.Written.{call_of, entry_of};
ghost use Rattle.ho_model.specs.Judging.{Accepts, IsAnswer};

use super::line::Line;
use super::replies::agrees;
use crate::histories::{Call, Entry, Items, Reply};
use crate::objects::Object;
use ho_base::NoMemory;
use std::alloc::Global;

/// Whether a queue with these items accepts an entry.
#[tactic(auto, using(crate::proofs::Judging::accepts_of_queue))]
pub(super) fn accepts(
    alloc: Global,
    object: &Object,
    items: &mut Line,
    entry: &Entry,
) -> Result<bool, NoMemory>
    ensures { IfOk result (λ accepted. Accepts (stepped number_priority object.now (QueueState items.old)
        (entry_of object.now entry.now)) (QueueState items.new) accepted) }
{
    let Object::Queue { room, .. } = object else {
        return Ok(false);
    };
    let said = answer(alloc, *room, items, entry.call)?;
    Ok(agrees(&said, &entry.reply))
}

/// What a queue answers, if it has the call.
fn answer(alloc: Global, room: u32, items: &mut Line, call: Call) -> Result<Option<Reply>, NoMemory>
    ensures { IfOk result (λ said. IsAnswer false (queue_answer room items.old (call_of call)) items.new said) }
{
    match call {
        Call::Enq(item) => {
            if items.len() as u64 >= room as u64 {
                return Ok(Some(Reply::Full));
            }
            items.push(item)?;
            Ok(Some(Reply::Done))
        }
        Call::Deq => {
            if !items.has_item() {
                return Ok(Some(Reply::Empty));
            }
            Ok(Some(Reply::Item(items.take_first())))
        }
        Call::Peek => {
            if !items.has_item() {
                return Ok(Some(Reply::Empty));
            }
            Ok(Some(Reply::Item(items.first())))
        }
        Call::Count => Ok(Some(Reply::Count(items.len() as u64))),
        Call::Snap => {
            let mut numbers = Vec::new(alloc);
            items.add_numbers(&mut numbers)?;
            Ok(Some(Reply::Numbers(Items::from_vec(numbers))))
        }
        _ => Ok(None),
    }
}
