// One try of a call on a channel.
ghost use Rattle.std.specs.Prelude.{◌≡◌};
ghost use Rattle.channels.specs.Calls.{attempt_of};

use channel_core::{ChannelCall, ChannelReply};
use ho_base::Receipt;
use turn_lock::Attempt;

/// What one try of a call on a channel answers. All but the first make no entry and hand the call
/// back.
#[derive(Debug, Drop)]
pub enum ChannelTry<T> {
    /// The reply, and the place of its entry.
    Answer(ChannelReply<T>, Receipt),
    /// Another caller had the turn, or a ticket for it. A pass that holds all numbers never meets
    /// this.
    Busy(ChannelCall<T>),
    /// The caller has made 2^48 calls, as many as it may. Its try did nothing.
    Spent(ChannelCall<T>),
    /// There was no memory for a begin, or for a write to a channel without a capacity.
    NoMemory(ChannelCall<T>),
}

pub(crate) fn channel_try<T>(attempt: Attempt<ChannelCall<T>, ChannelReply<T>>) -> ChannelTry<T>
    ensures { attempt_of result ≡ attempt }
{
    match attempt {
        Attempt::Answer(reply, receipt) => ChannelTry::Answer(reply, receipt),
        Attempt::Busy(back) => ChannelTry::Busy(back),
        Attempt::Spent(back) => ChannelTry::Spent(back),
        Attempt::NoMemory(back) => ChannelTry::NoMemory(back),
    }
}
