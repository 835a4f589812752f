// The waits of a channel that is played, oldest first.
ghost use Rattle.std.specs.Prelude.{◌≡◌, ◌<◌, Some, true, length, map, remove, vec_len};
ghost use Rattle.ho_model.specs.Entries as entries;
ghost use Rattle.ho_model.specs.Channel as channel;
ghost use Rattle.ho_model.specs.Written.{mark_of, giving};
ghost use Rattle.ho_model.specs.Waits.{standing_of, wanted};

use super::standing::{Standing, Want, entering, told};
use crate::histories::Reply;
use std::marker::Model;
use std::mem::replace;

/// A wait: whose it is, its number, and where it stands. Contracts see it as the definition has it.
#[derive(Drop)]
pub(crate) struct Wait {
    caller: u32,
    number: u64,
    standing: Standing,
}

impl Model for Wait {
    ghost use Rattle.ho_model.specs.Channel.{Waiter};
    ghost use Rattle.ho_model.specs.Waits.{standing_of};

    ghost Value = { Waiter };

    ghost view = { λ w. record { caller = w.caller; number = w.number; standing = standing_of w.standing } };
}

impl Wait {
    pub(super) fn new(caller: u32, number: u64, standing: Standing) -> Wait
        ensures { result ≡ record {
          caller = caller;
          number = number;
          standing = standing_of standing;
        } }
    {
        Wait {
            caller,
            number,
            standing,
        }
    }

    fn stands_for(&self, want: Want) -> bool
        ensures { result ≡ wanted want self.now.standing }
    {
        self.standing.is(want)
    }

    fn is_waiting(&self) -> bool
        ensures { result ≡ channel.is_waiting self.now.standing }
    {
        self.standing.is_waiting()
    }

    fn is_of(&self, caller: u32, number: u64) -> bool
        ensures { result ≡ channel.is_wait caller number self.now }
    {
        self.caller == caller && self.number == number
    }

    /// Answers the wait, and gives where it stood.
    pub(super) fn answer(&mut self, reply: Reply) -> Standing
        ensures standing { standing_of result ≡ self.old.standing }
        ensures answered { self.new ≡ channel.answered self.old (giving reply) }
    {
        replace(&mut self.standing, Standing::Answered(reply))
    }

    /// Tells a wait of this kind that what it looks for is there.
    fn answer_look(&mut self, want: Want)
        ensures { self.new ≡ channel.answer_if (wanted want) (entries.Ready true) self.old }
    {
        if self.stands_for(want) {
            self.answer(Reply::Ready(true));
        }
    }

    /// Tells an unanswered wait that the channel is complete.
    fn tell(&mut self, fault: u32)
        ensures { self.new ≡ channel.tell fault self.old }
    {
        let standing = replace(&mut self.standing, Standing::WantsItem);
        self.standing = told(fault, standing);
    }

    fn into_standing(self) -> Standing
        ensures { standing_of result ≡ self.standing }
    {
        self.standing
    }
}

/// The place of the oldest such wait.
pub(super) fn oldest(waits: &[Wait], want: Want) -> Option<usize>
    ensures { result ≡ channel.oldest (wanted want) waits.now }
{
    waits.iter().position(|w| w.stands_for(want))
}

/// The place of a caller's wait with this number.
pub(super) fn find(waits: &[Wait], caller: u32, number: u64) -> Option<usize>
    ensures { result ≡ channel.wait_place waits.now caller number }
{
    waits.iter().position(|w| w.is_of(caller, number))
}

/// Whether the wait at a place has no answer yet.
pub(super) fn is_waiting(waits: &[Wait], place: usize) -> bool
    requires { place < length waits.now }
    ensures { result ≡ channel.is_waiting (channel.waiter_at waits.now place).standing }
{
    waits[place].is_waiting()
}

/// All such waits are told that what they look for is there.
pub(super) fn answer_looks(waits: &mut [Wait], want: Want)
    ensures { waits.new ≡ channel.answer_all (wanted want) (entries.Ready true) waits.old }
{
    for w in waits.iter_mut() {
        w.answer_look(want);
    }
}

/// All unanswered waits are told that the channel is complete.
pub(super) fn tell_all(waits: &mut [Wait], fault: u32)
    ensures { waits.new ≡ map (channel.tell fault) waits.old }
{
    for w in waits.iter_mut() {
        w.tell(fault);
    }
}

/// Hands an item to the wait at a place.
pub(super) fn hand(waits: &mut [Wait], place: usize, item: u64)
    requires { place < length waits.old }
    ensures { waits.new ≡ channel.answer_at waits.old place (entries.Item (mark_of item)) }
{
    waits[place].answer(Reply::Item(item));
}

/// Answers the oldest waiting write, at its place, and gives its item.
#[tactic(auto, using(crate::proofs::Waiting::oldest_below, crate::proofs::Waiting::oldest_wants_room))]
pub(super) fn admit(waits: &mut [Wait], place: usize) -> u64
    requires { Some place ≡ channel.oldest channel.wants_room waits.old }
    ensures item { mark_of result ≡ channel.item_of (channel.waiter_at waits.old place).standing }
    ensures waits { waits.new ≡ channel.answer_at waits.old place entries.Done }
{
    entering(waits[place].answer(Reply::Done))
}

/// Removes the wait at a place, and gives where it stood.
pub(super) fn withdraw(waits: &mut Vec<Wait>, place: usize) -> Standing
    requires { place < vec_len waits.old }
    ensures standing { standing_of result ≡ (channel.waiter_at waits.old.items place).standing }
    ensures waits { waits.new.items ≡ remove waits.old.items place }
{
    waits.remove(place).into_standing()
}
