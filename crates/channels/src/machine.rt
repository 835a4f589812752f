// The machine behind a channel.
use channel_core::{ChannelCall, ChannelReply, ChannelState};
use ho_base::{Item, Unpaid};
use ho_model::Machine;
use priority_core::PriorityState;

/// A channel in the order of writing, or by priority.
#[derive(Drop)]
pub(crate) enum ChannelMachine<T: Item> {
    Ordered(ChannelState<T>),
    Prioritized(PriorityState<T>),
}

impl<T: Item> Machine for ChannelMachine<T> {
    ghost use Rattle.ho_model.specs.Tallies.{no_tally};
    ghost use Rattle.channel_core.specs.Fits.{fits};
    ghost use Rattle.channel_core.specs.Kept.{state_of, may_want};
    ghost use Rattle.channel_core.specs.Marks.{call_mark, reply_mark};
    ghost use Rattle.channels.specs.Machine.{kept};

    type Call = ChannelCall<T>;

    type Reply = ChannelReply<T>;

    ghost object = { λ m. (kept m).object };

    ghost callers = { λ m. (kept m).callers };

    ghost state = { λ m. state_of (kept m) };

    ghost steps = { λ m. (kept m).steps };

    ghost tally = { λ m. no_tally };

    ghost priority = { T.priority_of };

    ghost call_mark = { call_mark T.mark };

    ghost reply_mark = { reply_mark T.mark };

    ghost fits = { fits };

    ghost may_want = { may_want };

    fn step(
        &mut self,
        caller: u32,
        call: ChannelCall<T>,
    ) -> Result<ChannelReply<T>, Unpaid<ChannelCall<T>>> {
        match self {
            ChannelMachine::Ordered(state) => state.step(caller, call),
            ChannelMachine::Prioritized(state) => state.step(caller, call),
        }
    }
}
