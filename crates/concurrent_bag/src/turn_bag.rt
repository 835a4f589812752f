// A bag that callers share behind one turn.
ghost use Rattle.std.specs.Prelude.{◌≡◌, ◌<◌, ◌≤◌, IfOk};

use crate::answers::{BagAdd, BagTake};
use crate::calls::{BagCall, BagReply};
use crate::machine::BagMachine;
use crate::turn_pass::TurnPass;
use ho_base::{Item, NoMemory, Receipt, Unpaid};
use ho_model::Items;
use std::alloc::Global;
use std::marker::Model;
use std::sync::Wait;
use turn_lock::Shared;

/// An unordered collection that up to 64 callers share, with a list for each, after .NET's
/// `ConcurrentBag<T>`. To a contract it is its table.
///
/// A call waits for the others that call, and for nothing else. An answer counts one call of the
/// caller, and want of memory at most one. As the bag is built, a caller whose count is 2^48 waits for
/// good: no contract speaks of that. The receipt of each entry is its place in the bag's history.
#[derive(Drop)]
pub struct TurnBag<T: Item> {
    shared: Shared<BagMachine<T>>,
}

impl<T: Item> Model for TurnBag<T> {
    ghost use Rattle.atomic_table.specs.Seated.{TableId, table_id_coded};

    ghost Value = { TableId };

    ghost coded = { table_id_coded };

    ghost view = { λ b. b.shared };
}

impl<T: Item> TurnBag<T> {
    ghost use Rattle.ho_model.specs.Entries.{entry};
    ghost use Rattle.ho_model.specs.declared.marks.CallMark.TheVariants as callmark;
    ghost use Rattle.ho_model.specs.declared.marks.ReplyMark.TheVariants.{Counted};
    ghost use Rattle.passes.specs.Numbers.{held_count};
    ghost use Rattle.passes.specs.Calls.{Splits, Joins};
    ghost use Rattle.concurrent_bag.specs.Passes.{Answers, first_of};
    ghost use Rattle.concurrent_bag.specs.Answers.{Ends, Adds, Snaps, take_mark};

    /// A bag without items for 1 to 64 callers, and the first pass, which holds all numbers.
    pub fn new(alloc: Global, callers: u32) -> Result<(TurnBag<T>, TurnPass), NoMemory>
        requires callers { (0 < callers) × (callers ≤ 64) }
        ensures { IfOk result (λ made. made.1 ≡ first_of made.0 callers) }
    {
        let machine = BagMachine::new(alloc, callers)?;
        let (shared, pass) = Shared::new(alloc, machine, callers)?;
        Ok((TurnBag { shared }, TurnPass { pass }))
    }

    /// Splits off a pass with the least number that can be given away, which has seen as much.
    ///
    /// The new pass holds that number alone. Takes no memory.
    pub fn split(&self, pass: &mut TurnPass) -> TurnPass
        requires table { pass.old.table ≡ self.now }
        requires spare { 1 < held_count pass.old.held }
        ensures { Splits pass.old pass.new result }
    {
        TurnPass {
            pass: self.shared.split(&mut pass.pass),
        }
    }

    /// Takes in another pass of the same bag, with its numbers.
    ///
    /// What is seen afterwards is the longer of the two lists. Each of them begins it, and goes on
    /// with entries of callers other than that pass's own. Takes no memory.
    pub fn join(&self, pass: &mut TurnPass, other: TurnPass)
        requires table { (pass.old.table ≡ self.now) × (other.table ≡ self.now) }
        ensures { Joins T.priority_of pass.old other pass.new }
    {
        let TurnPass { pass: other } = other;
        self.shared.join(&mut pass.pass, other)
    }

    /// Puts an item last in the caller's own list, if that has room (`Add`). A list has room for 16,383
    /// items. For want of memory there is no entry, and the item comes back.
    pub fn add<R: Wait>(
        &self,
        rt: &R,
        pass: &mut TurnPass,
        item: T,
    ) -> Result<(BagAdd<T>, Receipt), Unpaid<T>>
        requires { pass.old.table ≡ self.now }
        ensures { Adds T.priority_of T.mark pass.old pass.new item result }
    {
        match self.call(rt, pass, BagCall::Add(item)) {
            Ok((reply, receipt)) => match reply {
                BagReply::Done => Ok((BagAdd::Done, receipt)),
                BagReply::Full(back) => Ok((BagAdd::Full(back), receipt)),
                _ => unreachable!(),
            },
            Err(
                Unpaid {
                    back: BagCall::Add(back),
                },
            ) => Err(Unpaid { back }),
            Err(_) => unreachable!(),
        }
    }

    /// Takes the last item of the caller's own list or, where that has none, the first item of
    /// another (`TryTake`). Takes no memory.
    pub fn take<R: Wait>(&self, rt: &R, pass: &mut TurnPass) -> (BagTake<T>, Receipt)
        requires { pass.old.table ≡ self.now }
        ensures { Answers T.priority_of pass.old
            (entry pass.old.caller callmark.Take (take_mark T.mark result.0)) result.1 pass.new }
    {
        match self.call(rt, pass, BagCall::Take) {
            Ok((reply, receipt)) => match reply {
                BagReply::Item { from, item } => (BagTake::Item { from, item }, receipt),
                BagReply::Empty => (BagTake::Empty, receipt),
                _ => unreachable!(),
            },
            Err(_) => unreachable!(),
        }
    }

    /// Counts the items (`Count`). Takes no memory.
    pub fn count<R: Wait>(&self, rt: &R, pass: &mut TurnPass) -> (u64, Receipt)
        requires { pass.old.table ≡ self.now }
        ensures { Answers T.priority_of pass.old
            (entry pass.old.caller callmark.Count (Counted result.0)) result.1 pass.new }
    {
        match self.call(rt, pass, BagCall::Count) {
            Ok((BagReply::Count(count), receipt)) => (count, receipt),
            _ => unreachable!(),
        }
    }

    /// The numbers of all items, the lists in the order of their callers, each from its oldest item
    /// (`ToArray`). For want of memory there is no entry.
    pub fn snapshot<R: Wait>(
        &self,
        rt: &R,
        alloc: Global,
        pass: &mut TurnPass,
    ) -> Result<(Items, Receipt), NoMemory>
        requires { pass.old.table ≡ self.now }
        ensures { Snaps T.priority_of pass.old pass.new result }
    {
        // behind a turn the bag takes the memory, by the allocator that it keeps
        let _ = alloc;
        match self.call(rt, pass, BagCall::Snap) {
            Ok((reply, receipt)) => match reply {
                BagReply::Numbers(numbers) => Ok((numbers, receipt)),
                _ => unreachable!(),
            },
            Err(_) => Err(NoMemory),
        }
    }

    /// Waits for the turn, and makes the call.
    fn call<R: Wait>(
        &self,
        rt: &R,
        pass: &mut TurnPass,
        call: BagCall<T>,
    ) -> Result<(BagReply<T>, Receipt), Unpaid<BagCall<T>>>
        requires { pass.old.table ≡ self.now }
        ensures { Ends T.priority_of T.mark pass.old pass.new call result }
    {
        self.shared.call(rt, &mut pass.pass, call)
    }
}
