// The bag that callers share.
ghost use Rattle.std.specs.Prelude.{◌≡◌, ◌<◌, ◌≤◌, IfOk, OnErr};

use crate::answers::{BagAdd, BagAddOnce, BagTake, BagTakeOnce};
use crate::pass::BagPass;
use crate::{lasting, once};
use bag_rule::BagTable;
use ho_base::{Item, NoMemory, Receipt, Unpaid};
use ho_model::Items;
use passes::Numbers;
use std::alloc::Global;
use std::marker::Model;
use std::sync::Wait;

/// An unordered collection that up to 64 callers share, with a list for each, after .NET's
/// `ConcurrentBag<T>`. To a contract it is its table.
///
/// A caller adds to its own list and takes from it first; the lists of others it only tries. A call
/// holds a list while it changes it, and makes its entry at one step of a word that all share. So
/// callers wait for each other at a list, and not at the bag. An answer counts one call of the caller,
/// and no other end of a call counts. A caller makes at most 2^37 calls: one more waits for good, or
/// is `Spent`. The receipt of each entry is its place in the bag's history.
#[derive(Drop)]
pub struct ConcurrentBag<T: Item> {
    table: BagTable<T>,
}

impl<T: Item> Model for ConcurrentBag<T> {
    ghost use Rattle.atomic_table.specs.Seated.{TableId, table_id_coded};

    ghost Value = { TableId };

    ghost coded = { table_id_coded };

    ghost view = { λ b. b.table };
}

impl<T: Item> ConcurrentBag<T> {
    ghost use Rattle.ho_model.specs.Entries.{entry};
    ghost use Rattle.ho_model.specs.declared.marks.CallMark.TheVariants as callmark;
    ghost use Rattle.ho_model.specs.declared.marks.ReplyMark.TheVariants.{Counted};
    ghost use Rattle.passes.specs.Numbers.{held_count};
    ghost use Rattle.passes.specs.Calls.{Splits, Joins};
    ghost use Rattle.concurrent_bag.specs.Passes.{Answers, first_of};
    ghost use Rattle.concurrent_bag.specs.Answers.{Adds, Snaps, take_mark};
    ghost use Rattle.concurrent_bag.specs.Tries.{HasNoCallLeft, AddsOnce, TakesOnce};

    /// A bag without items for 1 to 64 callers, and the first pass, which holds all numbers.
    pub fn new(alloc: Global, callers: u32) -> Result<(ConcurrentBag<T>, BagPass), NoMemory>
        requires callers { (0 < callers) × (callers ≤ 64) }
        ensures { IfOk result (λ made. made.1 ≡ first_of made.0 callers) }
    {
        let (table, seat) = BagTable::new(alloc, callers)?;
        let pass = BagPass {
            badge: seat.into_badge(),
            numbers: Numbers::first(callers),
        };
        Ok((ConcurrentBag { table }, pass))
    }

    /// Splits off a pass with the least number that can be given away, which has seen as much.
    ///
    /// The new pass holds that number alone. Takes no memory.
    pub fn split(&self, pass: &mut BagPass) -> BagPass
        requires table { pass.old.table ≡ self.now }
        requires spare { 1 < held_count pass.old.held }
        ensures { Splits pass.old pass.new result }
    {
        let (badge, numbers) = once::split(&self.table, &mut pass.badge, &mut pass.numbers);
        BagPass { badge, numbers }
    }

    /// Takes in another pass of the same bag, with its numbers.
    ///
    /// What is seen afterwards is the longer of the two lists. Each of them begins it, and goes on
    /// with entries of callers other than that pass's own. Takes no memory.
    pub fn join(&self, pass: &mut BagPass, other: BagPass)
        requires table { (pass.old.table ≡ self.now) × (other.table ≡ self.now) }
        ensures { Joins T.priority_of pass.old other pass.new }
    {
        let BagPass { badge, numbers } = other;
        once::join(
            &self.table,
            &mut pass.badge,
            &mut pass.numbers,
            badge,
            numbers,
        )
    }

    /// Puts an item last in the caller's own list, if that has room (`Add`). A list has room for 16,383
    /// items. For want of memory there is no entry, and the item comes back.
    pub fn add<R: Wait>(
        &self,
        rt: &R,
        pass: &mut BagPass,
        item: T,
    ) -> Result<(BagAdd<T>, Receipt), Unpaid<T>>
        requires { pass.old.table ≡ self.now }
        ensures left { ¬ HasNoCallLeft pass.old }
        ensures told { Adds T.priority_of T.mark pass.old pass.new item result }
        ensures uncounted { OnErr result (pass.new.made ≡ pass.old.made) }
    {
        lasting::add(rt, &self.table, &mut pass.badge, &mut pass.numbers, item)
    }

    /// Tries to add an item once: it makes no second try where another caller holds the own list.
    pub fn add_once(&self, pass: &mut BagPass, item: T) -> BagAddOnce<T>
        requires { pass.old.table ≡ self.now }
        ensures { AddsOnce T.priority_of T.mark pass.old pass.new item result }
    {
        once::add(&self.table, &mut pass.badge, &mut pass.numbers, item)
    }

    /// Takes the last item of the caller's own list or, where that has none, the first item of
    /// another (`TryTake`). Takes no memory.
    pub fn take<R: Wait>(&self, rt: &R, pass: &mut BagPass) -> (BagTake<T>, Receipt)
        requires { pass.old.table ≡ self.now }
        ensures left { ¬ HasNoCallLeft pass.old }
        ensures told { Answers T.priority_of pass.old
            (entry pass.old.caller callmark.Take (take_mark T.mark result.0)) result.1 pass.new }
    {
        lasting::take(rt, &self.table, &mut pass.badge, &mut pass.numbers)
    }

    /// Tries to take an item once: it looks into each list at most once. Takes no memory.
    pub fn take_once(&self, pass: &mut BagPass) -> BagTakeOnce<T>
        requires { pass.old.table ≡ self.now }
        ensures { TakesOnce T.priority_of T.mark pass.old pass.new result }
    {
        once::take(&self.table, &mut pass.badge, &mut pass.numbers)
    }

    /// Counts the items (`Count`), at one step. Takes no memory.
    pub fn count<R: Wait>(&self, rt: &R, pass: &mut BagPass) -> (u64, Receipt)
        requires { pass.old.table ≡ self.now }
        ensures left { ¬ HasNoCallLeft pass.old }
        ensures told { Answers T.priority_of pass.old
            (entry pass.old.caller callmark.Count (Counted result.0)) result.1 pass.new }
    {
        lasting::count(rt, &self.table, &mut pass.badge, &mut pass.numbers)
    }

    /// The numbers of all items, the lists in the order of their callers, each from its oldest item
    /// (`ToArray`). It holds all lists at once. For want of memory there is no entry.
    pub fn snapshot<R: Wait>(
        &self,
        rt: &R,
        alloc: Global,
        pass: &mut BagPass,
    ) -> Result<(Items, Receipt), NoMemory>
        requires { pass.old.table ≡ self.now }
        ensures left { ¬ HasNoCallLeft pass.old }
        ensures told { Snaps T.priority_of pass.old pass.new result }
        ensures uncounted { OnErr result (pass.new.made ≡ pass.old.made) }
    {
        lasting::snapshot(rt, alloc, &self.table, &mut pass.badge, &mut pass.numbers)
    }
}
