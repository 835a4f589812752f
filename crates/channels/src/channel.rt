// A channel that callers share.
ghost use Rattle.std.specs.Prelude.{◌≡◌, ◌<◌, ◌≤◌, ◌↔◌, IfOk, Err};

use crate::machine::ChannelMachine;
use crate::news::news_of;
use crate::tries::{ChannelTry, channel_try};
use channel_core::{ChannelCall, ChannelReply, ChannelState};
use ho_base::{Item, NoMemory, Receipt, Unpaid};
use ho_model::Mode;
use pauses::{Bells, Hears};
use priority_core::PriorityState;
use std::alloc::Global;
use std::marker::Model;
use std::sync::Wait;
use turn_lock::{Pass, Shared};

/// Why no channel was made.
#[derive(Clone, Copy, Debug, PartialEq, Eq)]
pub enum MakeRefused {
    /// The capacity is 0, or above 65,536.
    BadCapacity,
    NoMemory,
}

/// The most items that a bounded channel has room for.
const MOST_ITEMS: u32 = 65_536;

/// A channel that up to 64 callers share, after .NET's `Channel<T>`. To a contract it is its table,
/// as a `Shared` is.
#[derive(Drop)]
pub struct Channel<T: Item> {
    pub(crate) shared: Shared<ChannelMachine<T>>,
    /// Beside these those sleep who wait for an item or for room.
    pub(crate) bells: Bells,
}

impl<T: Item> Model for Channel<T> {
    ghost use Rattle.atomic_table.specs.Seated.{TableId, table_id_coded};

    ghost Value = { TableId };

    ghost coded = { table_id_coded };

    ghost view = { λ c. c.shared };
}

impl<T: Item> Channel<T> {
    ghost use Rattle.ho_model.specs.declared.objects.Object.TheVariants as object;
    ghost use Rattle.passes.specs.Numbers.{held_count};
    ghost use Rattle.passes.specs.Views.{first_pass};
    ghost use Rattle.passes.specs.Calls.{IsSamePass, Splits, Joins};
    ghost use Rattle.channels.specs.Calls.{Calls, Tries};
    ghost use Rattle.channels.specs.Making.{IsBadCapacity};
    ghost use Rattle.channels.specs.declared.channel.MakeRefused.TheVariants.{BadCapacity};

    /// A channel that is never full (.NET's `Channel.CreateUnbounded`), for callers 0 up to
    /// `callers`, and the first pass, which holds all numbers.
    pub fn unbounded(alloc: Global, callers: u32) -> Result<(Channel<T>, Pass), NoMemory>
        requires callers { (0 < callers) × (callers ≤ 64) }
        ensures { IfOk result (λ made. made.1 ≡ first_pass made.0 object.Unbounded callers) }
    {
        let state = ChannelState::unbounded(alloc, callers)?;
        let (shared, pass) = Shared::new(alloc, ChannelMachine::Ordered(state), callers)?;
        let bells = Bells::new();
        Ok((Channel { shared, bells }, pass))
    }

    /// A channel with room for `capacity` items (.NET's `Channel.CreateBounded`), and the first
    /// pass. It takes the memory of its buffer here.
    pub fn bounded(
        alloc: Global,
        capacity: u32,
        mode: Mode,
        callers: u32,
    ) -> Result<(Channel<T>, Pass), MakeRefused>
        requires callers { (0 < callers) × (callers ≤ 64) }
        ensures made { IfOk result (λ made. made.1 ≡
            first_pass made.0 (object.Bounded capacity mode) callers) }
        ensures bad { (result ≡ Err BadCapacity) ↔ IsBadCapacity capacity }
    {
        if capacity == 0 || capacity > MOST_ITEMS {
            return Err(MakeRefused::BadCapacity);
        }
        let Ok(state) = ChannelState::bounded(alloc, capacity, mode, callers) else {
            return Err(MakeRefused::NoMemory);
        };
        match Shared::new(alloc, ChannelMachine::Ordered(state), callers) {
            Ok((shared, pass)) => {
                let bells = Bells::new();
                Ok((Channel { shared, bells }, pass))
            }
            Err(_) => Err(MakeRefused::NoMemory),
        }
    }

    /// A channel without a capacity whose items leave by priority
    /// (.NET's `Channel.CreateUnboundedPrioritized`), and the first pass.
    pub fn prioritized(alloc: Global, callers: u32) -> Result<(Channel<T>, Pass), NoMemory>
        requires callers { (0 < callers) × (callers ≤ 64) }
        ensures { IfOk result (λ made. made.1 ≡ first_pass made.0 object.Prioritized callers) }
    {
        let state = PriorityState::new(alloc, callers)?;
        let (shared, pass) = Shared::new(alloc, ChannelMachine::Prioritized(state), callers)?;
        let bells = Bells::new();
        Ok((Channel { shared, bells }, pass))
    }

    /// Splits off a pass with the least number that can be given away, which has seen as much.
    /// Takes no memory.
    pub fn split(&self, pass: &mut Pass) -> Pass
        requires table { pass.old.table ≡ self.now }
        requires spare { 1 < held_count pass.old.held }
        ensures { Splits pass.old pass.new result }
    {
        self.shared.split(pass)
    }

    /// Takes in another pass of the same channel, with its numbers, their counts, and what it has
    /// seen. Takes no memory.
    pub fn join(&self, pass: &mut Pass, other: Pass)
        requires table { (pass.old.table ≡ self.now) × (other.table ≡ self.now) }
        ensures { Joins T.priority_of pass.old other pass.new }
    {
        self.shared.join(pass, other)
    }

    /// Waits for the turn, and makes any call of the channel. It never waits for room or for an
    /// item.
    ///
    /// An answer is the reply and the place of the call's entry. For want of memory, which only the
    /// begins and a write to a channel without a capacity can meet, there is no entry and the call
    /// comes back. A caller that has made 2^48 calls does not return.
    pub fn call<R: Wait>(
        &self,
        rt: &R,
        pass: &mut Pass,
        call: ChannelCall<T>,
    ) -> Result<(ChannelReply<T>, Receipt), Unpaid<ChannelCall<T>>>
        requires { pass.old.table ≡ self.now }
        ensures pass { IsSamePass pass.old pass.new }
        ensures called { Calls T.mark T.priority_of pass.old pass.new call result }
    {
        let news = news_of(&call);
        self.shared.call_and_tell(rt, pass, call, &self.bells, news)
    }

    /// Tries once to get the turn, and makes any call of the channel where it came. It waits for
    /// nobody.
    ///
    /// All answers but the first make no entry and hand the call back: [`ChannelTry`] says when
    /// each comes.
    pub fn try_call(&self, pass: &mut Pass, call: ChannelCall<T>) -> ChannelTry<T>
        requires { pass.old.table ≡ self.now }
        ensures pass { IsSamePass pass.old pass.new }
        ensures tried { Tries T.mark T.priority_of pass.old pass.new call result }
    {
        let news = news_of(&call);
        let answer = channel_try(self.shared.try_call(pass, call));
        self.bells.tell(news);
        answer
    }

    /// Wakes all callers that sleep until there is an item or room, so that each looks again at once. Who has
    /// cancelled many of them calls it, since a caller that sleeps looks at its token only when it wakes.
    pub fn wake_all(&self) {
        self.bells.wake_all();
    }
}
