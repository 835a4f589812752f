// What writers and readers have in common.
ghost use Rattle.passes.specs.Calls.{IsSamePass};
ghost use Rattle.turn_lock.specs.Passes.{LockPass};
ghost use Rattle.channels.specs.Calls.{Calls, Tries};

use crate::tries::ChannelTry;
use channel_core::{ChannelCall, ChannelReply};
use ho_base::{Marked, Receipt, Unpaid};
use pauses::Nap;
use std::sync::Wait;

/// A side of a channel, a writer or a reader, as one thread sees it.
///
/// What serves both sides, or runs under the methods of a trait, is written over this trait: such a
/// method may not call what asks that a type parameter is `Send`, as `Writer` and `Reader` ask of
/// their items.
pub trait Side<T: Marked>: Drop {
    /// What contracts see of its pass.
    ghost pass: { Self → LockPass };

    /// Waits for the turn, and makes any call of the channel, as `Channel::call` does.
    fn side_call<R: Wait>(
        &mut self,
        rt: &R,
        call: ChannelCall<T>,
    ) -> Result<(ChannelReply<T>, Receipt), Unpaid<ChannelCall<T>>>
        ensures same { IsSamePass (pass self.old) (pass self.new) }
        ensures called { Calls T.mark T.priority_of (pass self.old) (pass self.new) call result };

    /// Tries once to get the turn, and makes any call of the channel where it came, as
    /// `Channel::try_call` does.
    fn try_side_call(&mut self, call: ChannelCall<T>) -> ChannelTry<T>
        ensures same { IsSamePass (pass self.old) (pass self.new) }
        ensures tried { Tries T.mark T.priority_of (pass self.old) (pass self.new) call result };

    /// Notes the place of the begin that left a wait, by its receipt, so that the waits that began first
    /// are woken first.
    fn note(&self, receipt: Receipt);

    /// Takes the next pause of a wait.
    fn nap<R: Wait>(&self, rt: &R, nap: &mut Nap);

    /// Ends the pauses of a wait.
    fn wake(&self, nap: &mut Nap);
}
