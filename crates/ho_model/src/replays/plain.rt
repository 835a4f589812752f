// An object that is played, of any kind.
ghost use Rattle.std.specs.Prelude.{◌≡◌, IfOk};
ghost use Rattle.ho_base.specs.Marks.{number_priority};
ghost use Rattle.ho_model.specs.Objects.{empty_state, object_step};
ghost use Rattle.ho_model.specs.Written.{entry_of};
ghost use Rattle.ho_model.specs.Judging.{Accepts};
ghost use Rattle.ho_model.specs.Evaluated.{state_of};

use super::blocking::Collection;
use super::caller_lines::CallerLines;
use super::channel::Channel;
use super::line::Line;
use super::{bag, blocking, channel, queue};
use crate::histories::Entry;
use crate::objects::Object;
use ho_base::NoMemory;
use std::alloc::Global;

/// How many callers an object can have.
const CALLERS: u32 = 64;

/// The state of an object, with items that are numbers.
#[derive(Drop)]
pub(crate) enum Plain {
    Queue(Line),
    Bag(CallerLines),
    Channel(Channel),
    Blocking(Collection),
}

impl Plain {
    /// An object before its first call.
    pub(crate) fn new(alloc: Global, object: &Object) -> Result<Plain, NoMemory>
        ensures { IfOk result (λ plain. state_of plain ≡ empty_state object.now) }
    {
        match object {
            Object::Queue { .. } => Ok(Plain::Queue(Line::new(alloc))),
            Object::Bag => Ok(Plain::Bag(CallerLines::new(alloc)?)),
            Object::Blocking { .. } => Ok(Plain::Blocking(Collection::new(alloc)?)),
            _ => Ok(Plain::Channel(Channel::new(alloc))),
        }
    }

    /// Whether the object accepts an entry. Once it refuses one its state means nothing.
    pub(crate) fn accepts(
        &mut self,
        alloc: Global,
        object: &Object,
        entry: &Entry,
    ) -> Result<bool, NoMemory>
        ensures { IfOk result (λ accepted. Accepts (object_step number_priority object.now (state_of self.old)
            (entry_of object.now entry.now)) (state_of self.new) accepted) }
    {
        if entry.caller >= CALLERS {
            return Ok(false);
        }
        match self {
            Plain::Queue(items) => queue::accepts(alloc, object, items, entry),
            Plain::Bag(lists) => bag::accepts(alloc, object, lists, entry),
            Plain::Channel(state) => channel::accepts(object, state, entry),
            Plain::Blocking(state) => blocking::accepts(alloc, object, state, entry),
        }
    }
}
