// The machine of a blocking collection.
ghost use Rattle.std.specs.Prelude.{◌≡◌, ◌<◌, ◌≤◌, [], IfOk};
ghost use Rattle.std.specs.Option.{ForSome};
ghost use Rattle.ho_model.specs.Tallies.{no_tally};
ghost use Rattle.ho_model.specs.declared.objects.Object.TheVariants as object;
ghost use Rattle.blocking_core.specs.Calls.{call_mark, reply_mark, fits};
ghost use Rattle.blocking_core.specs.Kept.{IsMachineOf, state_of, may_want};

use crate::calls::{BlockingCall, BlockingReply};
use crate::rows::Rows;
use crate::stored::Stored;
use ho_base::{Item, NoMemory, Unpaid};
use ho_model::{Machine, Store};
use std::alloc::Global;
use std::marker::Model;

/// A blocking collection within one thread, after .NET's `BlockingCollection<T>` over a
/// `ConcurrentQueue<T>`, a `ConcurrentStack<T>` or a `ConcurrentBag<T>`. Contracts see the object,
/// how many callers it serves, how many entries it has made, and the collection's state.
#[derive(Drop)]
pub struct BlockingState<T: Item> {
    rows: Rows<T>,
    callers: u32,
    steps: u64,
}

impl<T: Item> Model for BlockingState<T> {
    ghost use Rattle.ho_model.specs.declared.objects.Object.TheVariants as object;
    ghost use Rattle.blocking_core.specs.Kept.{Kept, IsSound};
    ghost use Rattle.blocking_core.specs.Stores.{store_of, bound_of};
    ghost use Rattle.blocking_core.specs.Rows.{blocking_of};

    ghost Value = { Kept };

    ghost view = { λ s. record {
      object = object.Blocking (store_of s.rows.stored) (bound_of s.rows.stored);
      callers = s.callers;
      steps = s.steps;
      blocking = blocking_of s.rows;
    } };

    ghost invariant = { λ s. IsSound s.callers s.steps (blocking_of s.rows) };
}

impl<T: Item> BlockingState<T> {
    /// A collection without items, open for adding, for 1 to 64 callers, with room for 1 to 65,536
    /// items or without a bound.
    ///
    /// With a bound, a first-in or last-in store takes the memory of its items here, and its adds
    /// take none.
    pub fn new(
        alloc: Global,
        store: Store,
        bound: Option<u32>,
        callers: u32,
    ) -> Result<BlockingState<T>, NoMemory>
        requires bound { ForSome bound (λ n. (0 < n) × (n ≤ 65536)) }
        requires callers { (0 < callers) × (callers ≤ 64) }
        ensures empty { IfOk result (λ s. IsMachineOf T.priority_of (object.Blocking store bound) callers s []) }
    {
        let stored = Stored::new(alloc, store, bound)?;
        let rows = Rows {
            stored,
            closed: false,
            alloc,
        };
        Ok(BlockingState {
            rows,
            callers,
            steps: 0,
        })
    }
}

impl<T: Item> Machine for BlockingState<T> {
    type Call = BlockingCall<T>;

    type Reply = BlockingReply<T>;

    ghost object = { λ s. s.object };

    ghost callers = { λ s. s.callers };

    ghost state = { state_of };

    ghost steps = { λ s. s.steps };

    ghost tally = { λ s. no_tally };

    ghost priority = { T.priority_of };

    ghost call_mark = { call_mark T.mark };

    ghost reply_mark = { reply_mark T.mark };

    ghost fits = { fits };

    ghost may_want = { may_want };

    fn step(
        &mut self,
        caller: u32,
        call: BlockingCall<T>,
    ) -> Result<BlockingReply<T>, Unpaid<BlockingCall<T>>> {
        let reply = self.rows.step(caller, call)?;
        self.steps += 1;
        Ok(reply)
    }
}
