// What a channel's rows come to.
ghost use Rattle.std.specs.Prelude.{◌≡◌, false, Option, Some};
ghost use Rattle.ho_model.specs.Channel as channel;
ghost use Rattle.ho_model.specs.Written.{giving};
ghost use Rattle.ho_model.specs.Judging.{IsAnswer};
ghost use Rattle.ho_model.specs.Tries.{kind_of, IsTried};

use crate::histories::Reply;
use crate::objects::Mode;

/// How many items fit, what a write to a full buffer does, and whether reads go by priority.
#[derive(Clone, Copy)]
pub(crate) struct Kind {
    pub(super) capacity: Option<u32>,
    pub(super) mode: Mode,
    pub(super) by_priority: bool,
}

/// What a write, a read or a look came to.
#[derive(Drop)]
pub(crate) enum Tried {
    Answer(Reply),
    /// It drops an item of a buffer that has none, as one without room does.
    Unwritten,
    /// It would have to wait.
    Wait,
}

impl Kind {
    /// Whether a buffer with so many items is full.
    pub(super) fn is_full(self, count: usize) -> bool
        ensures { result ≡ channel.is_full (kind_of self).capacity count }
    {
        match self.capacity {
            None => false,
            Some(capacity) => capacity as usize <= count,
        }
    }
}

impl Tried {
    /// The answer of a call that does not wait, and says this in place of it.
    pub(super) fn or(self, other: Reply) -> Option<Reply>
        ensures { (outcome : Option channel.Outcome) → (old : channel.Channel) → (new : channel.Channel) →
            IsTried outcome old new self →
            IsAnswer false (Some (channel.or_else outcome (giving other, old))) new result }
    {
        match self {
            Tried::Answer(reply) => Some(reply),
            Tried::Unwritten => None,
            Tried::Wait => Some(other),
        }
    }
}

/// Whether a write to a full buffer drops an item in this mode.
pub(super) fn drops(mode: Mode) -> bool
    ensures { result ≡ channel.drops mode }
{
    !matches!(mode, Mode::Wait)
}
