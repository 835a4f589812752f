// A channel whose items leave in the order of writing.
ghost use Rattle.std.specs.Prelude.{◌≡◌, ℕ, ◌<◌, ◌≤◌, [], IfOk};
ghost use Rattle.ho_model.specs.Tallies.{no_tally};
ghost use Rattle.ho_model.specs.declared.objects.Object.TheVariants as object;
ghost use Rattle.channel_core.specs.Marks.{call_mark, reply_mark};
ghost use Rattle.channel_core.specs.Fits.{fits};
ghost use Rattle.channel_core.specs.Kept.{IsMachineOf, state_of, may_want};

use crate::buffer::Buffer;
use crate::calls::{ChannelCall, ChannelReply};
use crate::rows::Core;
use circular_buffer::HeapCircularBuffer;
use ho_base::{Item, NoMemory, Unpaid};
use ho_model::{Machine, Mode};
use std::alloc::Global;
use std::collections::VecDeque;
use std::marker::Model;

/// A channel within one thread, after .NET's `Channel<T>` as `Channel.CreateUnbounded` and
/// `Channel.CreateBounded` make it. Contracts see the object, how many callers it serves, how many
/// entries it has made, and the channel's state.
#[derive(Drop)]
pub struct ChannelState<T: Item> {
    core: Core<T, Buffer<T>>,
    callers: u32,
    steps: u64,
}

impl<T: Item> Model for ChannelState<T> {
    ghost use Rattle.channel_core.specs.Kept.{Kept, IsSound, object_with};
    ghost use Rattle.channel_core.specs.Rows.{channel_of};
    ghost use Rattle.channel_core.specs.Buffers.{buffer_items, buffer_capacity};

    ghost Value = { Kept };

    ghost view = { λ s. record {
      object = object_with (buffer_capacity s.core.store) s.core.mode;
      callers = s.callers;
      steps = s.steps;
      channel = channel_of T.mark (buffer_items T.mark) s.core;
    } };

    ghost invariant = { λ s. IsSound s.callers s.steps 0 s.core.begins (buffer_capacity s.core.store) s.core.mode };
}

impl<T: Item> ChannelState<T> {
    /// An empty channel that is never full, for 1 to 64 callers.
    pub fn unbounded(alloc: Global, callers: u32) -> Result<ChannelState<T>, NoMemory>
        requires callers { (0 < callers) × (callers ≤ 64) }
        ensures empty { IfOk result (λ s. IsMachineOf T.priority_of object.Unbounded callers s []) }
    {
        Ok(ChannelState {
            core: Core::new(alloc, Mode::Wait, Buffer::Open(VecDeque::new(alloc))),
            callers,
            steps: 0,
        })
    }

    /// An empty channel with room for 1 to 65,536 items, for 1 to 64 callers. It takes the memory of
    /// its buffer here, and none at a write.
    pub fn bounded(
        alloc: Global,
        capacity: u32,
        mode: Mode,
        callers: u32,
    ) -> Result<ChannelState<T>, NoMemory>
        requires capacity { (0 < capacity) × (capacity ≤ 65536) }
        requires callers { (0 < callers) × (callers ≤ 64) }
        ensures empty { IfOk result
            (λ s. IsMachineOf T.priority_of (object.Bounded capacity mode) callers s []) }
    {
        let ring = HeapCircularBuffer::with_capacity(alloc, capacity as usize)?;
        Ok(ChannelState {
            core: Core::new(alloc, mode, Buffer::Ring(ring)),
            callers,
            steps: 0,
        })
    }
}

impl<T: Item> Machine for ChannelState<T> {
    type Call = ChannelCall<T>;

    type Reply = ChannelReply<T>;

    ghost object = { λ s. s.object };

    ghost callers = { λ s. s.callers };

    ghost state = { state_of };

    ghost steps = { λ s. s.steps };

    ghost tally = { λ s. no_tally };

    ghost priority = { T.priority_of };

    ghost call_mark = { call_mark T.mark };

    ghost reply_mark = { reply_mark T.mark };

    ghost fits = { fits };

    ghost may_want = { may_want };

    fn step(
        &mut self,
        caller: u32,
        call: ChannelCall<T>,
    ) -> Result<ChannelReply<T>, Unpaid<ChannelCall<T>>> {
        let reply = self.core.step(caller, call)?;
        self.steps += 1;
        Ok(reply)
    }
}
