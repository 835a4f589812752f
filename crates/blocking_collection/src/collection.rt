// A blocking collection that callers share.
ghost use Rattle.std.specs.Prelude.{◌≡◌, ◌<◌, ◌≤◌, IfOk};
ghost use Rattle.std.specs.Option.{ForSome};

use crate::news::news_of;
use blocking_core::{BlockingCall, BlockingReply, BlockingState};
use ho_base::{Item, NoMemory, Receipt, Unpaid};
use ho_model::Store;
use pauses::Bells;
use std::alloc::Global;
use std::marker::Model;
use std::sync::Wait;
use turn_lock::{Pass, Shared};

/// A collection that up to 64 callers share and that can be completed for adding, after .NET's
/// `BlockingCollection<T>`. To a contract it is its table, as a `Shared` is.
#[derive(Drop)]
pub struct BlockingCollection<T: Item> {
    shared: Shared<BlockingState<T>>,
    /// Beside these those sleep who wait for an item or for room.
    pub(crate) bells: Bells,
}

impl<T: Item> Model for BlockingCollection<T> {
    ghost use Rattle.atomic_table.specs.Seated.{TableId, table_id_coded};

    ghost Value = { TableId };

    ghost coded = { table_id_coded };

    ghost view = { λ c. c.shared };
}

impl<T: Item> BlockingCollection<T> {
    ghost use Rattle.ho_model.specs.declared.objects.Object.TheVariants as object;
    ghost use Rattle.passes.specs.Numbers.{held_count};
    ghost use Rattle.passes.specs.Views.{first_pass};
    ghost use Rattle.passes.specs.Calls.{IsSamePass, Splits, Joins};
    ghost use Rattle.blocking_collection.specs.Singles.{OneCall};

    /// A collection without items, open for adding, for 1 to 64 callers, with room for 1 to 65,536
    /// items or without a bound; and the first pass, which holds all numbers.
    pub fn new(
        alloc: Global,
        store: Store,
        bound: Option<u32>,
        callers: u32,
    ) -> Result<(BlockingCollection<T>, Pass), NoMemory>
        requires bound { ForSome bound (λ n. (0 < n) × (n ≤ 65536)) }
        requires callers { (0 < callers) × (callers ≤ 64) }
        ensures { IfOk result (λ made. made.1 ≡ first_pass made.0 (object.Blocking store bound) callers) }
    {
        let state = BlockingState::new(alloc, store, bound, callers)?;
        let (shared, pass) = Shared::new(alloc, state, callers)?;
        let bells = Bells::new();
        Ok((BlockingCollection { shared, bells }, pass))
    }

    /// Splits off a pass with the least number that can be given away. See `Shared::split`.
    pub fn split(&self, pass: &mut Pass) -> Pass
        requires table { pass.old.table ≡ self.now }
        requires spare { 1 < held_count pass.old.held }
        ensures { Splits pass.old pass.new result }
    {
        self.shared.split(pass)
    }

    /// Takes in another pass of the same collection. See `Shared::join`.
    pub fn join(&self, pass: &mut Pass, other: Pass)
        requires table { (pass.old.table ≡ self.now) × (other.table ≡ self.now) }
        ensures { Joins T.priority_of pass.old other pass.new }
    {
        self.shared.join(pass, other)
    }

    /// Waits for the turn, and makes a call. See `Shared::call`. A caller that has made 2^48 calls does
    /// not return.
    ///
    /// For want of memory there is no entry and the call comes back. Only a snapshot can meet it, and
    /// an add where there is no bound or a list for each caller.
    pub fn call<R: Wait>(
        &self,
        rt: &R,
        pass: &mut Pass,
        call: BlockingCall<T>,
    ) -> Result<(BlockingReply<T>, Receipt), Unpaid<BlockingCall<T>>>
        requires { pass.old.table ≡ self.now }
        ensures pass { IsSamePass pass.old pass.new }
        ensures called { OneCall T.priority_of T.mark pass.old pass.new call result }
    {
        let news = news_of(&call);
        self.shared.call_and_tell(rt, pass, call, &self.bells, news)
    }

    /// Wakes all callers that sleep until there is an item or room, so that each looks again at once. Who has
    /// cancelled many of them calls it, since a caller that sleeps looks at its token only when it wakes.
    pub fn wake_all(&self) {
        self.bells.wake_all();
    }
}
