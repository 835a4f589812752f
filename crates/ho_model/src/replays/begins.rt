// The begins of a channel that is played, and what becomes of the waits that they leave.
ghost use Rattle.std.specs.Prelude.{◌≡◌, ◌<◌, false, Option, Some, IfOk};
ghost use Rattle.ho_model.specs.Channel as channel;
ghost use Rattle.ho_model.specs.Written.{mark_of, giving};
ghost use Rattle.ho_model.specs.Waits.{standing_of};
ghost use Rattle.ho_model.specs.Judging.{IsAnswer};
ghost use Rattle.ho_model.specs.Tries.{kind_of, IsTried};

use super::channel::Channel;
use super::standing::{Standing, cancelled, fetched};
use super::tried::{Kind, Tried};
use super::waits::{Wait, find, is_waiting, withdraw};
use crate::histories::Reply;
use ho_base::NoMemory;

impl Channel {
    /// A begin of a write.
    pub(super) fn begin_write(
        &mut self,
        kind: Kind,
        caller: u32,
        item: u64,
    ) -> Result<Option<Reply>, NoMemory>
        requires { caller < 64 }
        ensures { IfOk result (λ said. IsAnswer false (Some (channel.begin self.old caller
            (channel.WantsRoom (mark_of item)) (channel.written (kind_of kind) self.old (mark_of item))))
            self.new said) }
    {
        let tried = self.write(kind, item)?;
        self.begin(caller, Standing::WantsRoom(item), tried)
    }

    /// A begin of a read.
    pub(super) fn begin_read(&mut self, kind: Kind, caller: u32) -> Result<Option<Reply>, NoMemory>
        requires { caller < 64 }
        ensures { IfOk result (λ said. IsAnswer false (Some (channel.begin self.old caller
            channel.WantsItem (channel.taken (kind_of kind) self.old))) self.new said) }
    {
        let tried = self.read(kind)?;
        self.begin(caller, Standing::WantsItem, tried)
    }

    /// A begin of a look for an item.
    pub(super) fn begin_look_for_item(&mut self, caller: u32) -> Result<Option<Reply>, NoMemory>
        requires { caller < 64 }
        ensures { IfOk result (λ said. IsAnswer false (Some (channel.begin self.old caller
            channel.LooksForItem (channel.looked_read self.old))) self.new said) }
    {
        let tried = self.look_for_item();
        self.begin(caller, Standing::LooksForItem, tried)
    }

    /// A begin of a look for room.
    pub(super) fn begin_look_for_room(
        &mut self,
        kind: Kind,
        caller: u32,
    ) -> Result<Option<Reply>, NoMemory>
        requires { caller < 64 }
        ensures { IfOk result (λ said. IsAnswer false (Some (channel.begin self.old caller
            channel.LooksForRoom (channel.looked_write (kind_of kind) self.old))) self.new said) }
    {
        let tried = self.look_for_room(kind);
        self.begin(caller, Standing::LooksForRoom, tried)
    }

    /// A begin answers what was tried, or stands as a wait, and counts for its caller. More begins
    /// than a `u64` counts are in no history.
    fn begin(
        &mut self,
        caller: u32,
        standing: Standing,
        tried: Tried,
    ) -> Result<Option<Reply>, NoMemory>
        requires { caller < 64 }
        ensures { (old : channel.Channel) → (outcome : Option channel.Outcome) →
            old.begins ≡ self.old.begins → IsTried outcome old self.old tried →
            IfOk result (λ said. IsAnswer false (Some (channel.begin old caller (standing_of standing) outcome))
            self.new said) }
    {
        let number = self.begins[caller as usize];
        let Some(more) = number.checked_add(1) else {
            return Err(NoMemory);
        };
        self.begins[caller as usize] = more;
        match tried {
            Tried::Answer(reply) => Ok(Some(reply)),
            Tried::Unwritten => Ok(None),
            Tried::Wait => {
                self.waits.push(Wait::new(caller, number, standing))?;
                Ok(Some(Reply::Waiting(number)))
            }
        }
    }

    /// The answer of a caller's wait, which is then forgotten.
    pub(super) fn poll(&mut self, caller: u32, number: u64) -> Reply
        ensures { channel.poll self.old caller number ≡ (giving result, self.new) }
    {
        let Some(place) = find(self.waits.as_slice(), caller, number) else {
            return Reply::Unknown;
        };
        if is_waiting(self.waits.as_slice(), place) {
            return Reply::Waiting(number);
        }
        fetched(withdraw(&mut self.waits, place))
    }

    /// Gives up a caller's wait, or fetches its answer. It is then forgotten.
    pub(super) fn cancel(&mut self, caller: u32, number: u64) -> Reply
        ensures { channel.cancel self.old caller number ≡ (giving result, self.new) }
    {
        match find(self.waits.as_slice(), caller, number) {
            None => Reply::Unknown,
            Some(place) => cancelled(withdraw(&mut self.waits, place)),
        }
    }
}
