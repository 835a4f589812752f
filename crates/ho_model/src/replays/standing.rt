// Where a wait of a channel stands.
ghost use Rattle.std.specs.Prelude.{◌≡◌, ℕ, true, false};
ghost use Rattle.ho_model.specs.Channel as channel;
ghost use Rattle.ho_model.specs.Written.{mark_of, giving};
ghost use Rattle.ho_model.specs.Waits.{standing_of, wanted};

use crate::histories::Reply;

/// What a wait wants, or the answer that it has.
#[derive(Drop)]
pub(crate) enum Standing {
    WantsItem,
    WantsRoom(u64),
    LooksForItem,
    LooksForRoom,
    Answered(Reply),
}

/// Which waits are meant.
#[derive(Clone, Copy)]
pub(crate) enum Want {
    Item,
    Room,
    LookForItem,
    LookForRoom,
}

impl Standing {
    pub(super) fn is(&self, want: Want) -> bool
        ensures { result ≡ wanted want (standing_of self.now) }
    {
        match (self, want) {
            (Standing::WantsItem, Want::Item) => true,
            (Standing::WantsRoom(_), Want::Room) => true,
            (Standing::LooksForItem, Want::LookForItem) => true,
            (Standing::LooksForRoom, Want::LookForRoom) => true,
            _ => false,
        }
    }

    pub(super) fn is_waiting(&self) -> bool
        ensures { result ≡ channel.is_waiting (standing_of self.now) }
    {
        !matches!(self, Standing::Answered(_))
    }
}

/// What a look is told once the channel is complete.
pub(super) fn told_complete(fault: u32) -> Reply
    ensures { giving result ≡ channel.told_complete fault }
{
    if fault == 0 {
        return Reply::Ready(false);
    }
    Reply::Faulted(fault)
}

/// Where a wait stands once the channel is complete.
pub(super) fn told(fault: u32, standing: Standing) -> Standing
    ensures { standing_of result ≡ channel.told fault (standing_of standing) }
{
    match standing {
        Standing::WantsItem => Standing::Answered(Reply::ClosedWith(fault)),
        Standing::WantsRoom(item) => Standing::Answered(Reply::Refused(fault, item)),
        Standing::LooksForItem | Standing::LooksForRoom => {
            Standing::Answered(told_complete(fault))
        }
        Standing::Answered(reply) => Standing::Answered(reply),
    }
}

/// The item of a write that waits.
pub(super) fn entering(standing: Standing) -> u64
    requires { channel.wants_room (standing_of standing) ≡ true }
    ensures { mark_of result ≡ channel.item_of (standing_of standing) }
{
    match standing {
        Standing::WantsRoom(item) => item,
        _ => unreachable!(),
    }
}

/// What a poll of an answered wait says.
pub(super) fn fetched(standing: Standing) -> Reply
    requires { channel.is_waiting (standing_of standing) ≡ false }
    ensures { (number : ℕ) → giving result ≡ channel.polled (standing_of standing) number }
{
    match standing {
        Standing::Answered(reply) => reply,
        _ => unreachable!(),
    }
}

/// What a cancel of a wait says.
pub(super) fn cancelled(standing: Standing) -> Reply
    ensures { giving result ≡ channel.cancelled (standing_of standing) }
{
    match standing {
        Standing::WantsRoom(item) => Reply::CancelledWrite(item),
        Standing::Answered(answer) => answer,
        _ => Reply::Cancelled,
    }
}
