// The bag within one thread.
ghost use Rattle.std.specs.Prelude.{◌≡◌, ◌+◌, ◌^◌, ◌<◌, ◌≤◌, [], true, Some, IfOk, IfErr, OnErr};
ghost use Rattle.ho_model.specs.Bag as bag;
ghost use Rattle.ho_model.specs.Tallies.{no_tally};
ghost use Rattle.ho_model.specs.declared.marks.CallMark.TheVariants as callmark;
ghost use Rattle.ho_model.specs.declared.objects.Object.TheVariants as object;
ghost use Rattle.concurrent_bag.specs.Calls.{call_mark, reply_mark, AddFits, TakeFits, Fits, fits};
ghost use Rattle.concurrent_bag.specs.Kept.{IsBagOf, state_of, may_want};

use crate::calls::{BagCall, BagReply};
use ho_base::{Item, Marked, NoMemory, Unpaid};
use ho_model::{Items, Machine};
use item_lists::{CallerLists, Taken};
use std::alloc::{AllocError, Global};
use std::marker::Model;

/// How many items a caller's list holds at most.
const MOST_IN_LIST: usize = 16_383;

/// An unordered collection within one thread, after .NET's `ConcurrentBag<T>`. Contracts see the
/// lists by caller, how many callers it serves, and how many entries it has made.
#[derive(Drop)]
pub struct BagMachine<T: Item> {
    lists: CallerLists<T>,
    callers: u32,
    steps: u64,
    alloc: Global,
}

impl<T: Item> Model for BagMachine<T> {
    ghost use Rattle.concurrent_bag.specs.Kept.{Kept, IsSound};

    ghost Value = { Kept };

    ghost view = { λ b. record { callers = b.callers; steps = b.steps; lists = b.lists } };

    ghost invariant = { λ b. IsSound b.callers b.steps b.lists };
}

impl<T: Item> BagMachine<T> {
    /// A bag without items, for 1 to 64 callers.
    pub fn new(alloc: Global, callers: u32) -> Result<BagMachine<T>, NoMemory>
        requires callers { (0 < callers) × (callers ≤ 64) }
        ensures empty { IfOk result (λ b. IsBagOf T.priority_of callers b []) }
    {
        let lists = CallerLists::new(alloc)?;
        Ok(BagMachine {
            lists,
            callers,
            steps: 0,
            alloc,
        })
    }
}

impl<T: Item> Machine for BagMachine<T> {
    type Call = BagCall<T>;

    type Reply = BagReply<T>;

    ghost object = { λ b. object.Bag };

    ghost callers = { λ b. b.callers };

    ghost state = { state_of };

    ghost steps = { λ b. b.steps };

    ghost tally = { λ b. no_tally };

    ghost priority = { T.priority_of };

    ghost call_mark = { call_mark T.mark };

    ghost reply_mark = { reply_mark T.mark };

    ghost fits = { fits };

    ghost may_want = { may_want };

    fn step(&mut self, caller: u32, call: BagCall<T>) -> Result<BagReply<T>, Unpaid<BagCall<T>>> {
        let reply = answer(&mut self.lists, self.alloc, caller, call)?;
        self.steps += 1;
        Ok(reply)
    }
}

/// Answers a call, or hands it back for want of memory.
fn answer<T: Marked>(
    lists: &mut CallerLists<T>,
    alloc: Global,
    caller: u32,
    call: BagCall<T>,
) -> Result<BagReply<T>, Unpaid<BagCall<T>>>
    requires caller { caller < 64 }
    requires few { bag.item_count lists.old < 2 ^ 60 }
    ensures ok { IfOk result (λ reply.
        bag.bag_step lists.old caller (call_mark T.mark call) (reply_mark T.mark reply) ≡ Some lists.new) }
    ensures fits { IfOk result (λ reply. Fits call reply) }
    ensures more { bag.item_count lists.new ≤ bag.item_count lists.old + 1 }
    ensures back { IfErr result (λ unpaid. unpaid.back ≡ call) }
    ensures err { OnErr result (lists.new ≡ lists.old) }
    ensures wanted { OnErr result (may_want object.Bag (call_mark T.mark call) ≡ true) }
{
    match call {
        BagCall::Add(item) => match add(lists, caller, item) {
            Ok(reply) => Ok(reply),
            Err(back) => Err(Unpaid {
                back: BagCall::Add(back),
            }),
        },
        BagCall::Take => Ok(take(lists, caller)),
        BagCall::Count => Ok(BagReply::Count(lists.count())),
        BagCall::Snap => match numbers(lists, alloc) {
            Ok(numbers) => Ok(BagReply::Numbers(numbers)),
            Err(_) => Err(Unpaid {
                back: BagCall::Snap,
            }),
        },
    }
}

/// Puts an item last in the caller's list, if that has room.
fn add<T: Marked>(lists: &mut CallerLists<T>, caller: u32, item: T) -> Result<BagReply<T>, T>
    requires caller { caller < 64 }
    requires few { bag.item_count lists.old < 2 ^ 60 }
    ensures ok { IfOk result (λ reply. bag.added lists.old caller (T.mark item) ≡ (reply_mark T.mark reply, lists.new)) }
    ensures fits { IfOk result (λ reply. AddFits item reply) }
    ensures more { bag.item_count lists.new ≤ bag.item_count lists.old + 1 }
    ensures err { IfErr result (λ back. (back ≡ item) × (lists.new ≡ lists.old)) }
{
    if lists.len_of(caller) >= MOST_IN_LIST {
        return Ok(BagReply::Full(item));
    }
    match lists.push(caller, item) {
        Ok(()) => Ok(BagReply::Done),
        Err(back) => Err(back),
    }
}

/// Takes the caller's own last item or, where it has none, the first of another list.
fn take<T: Marked>(lists: &mut CallerLists<T>, caller: u32) -> BagReply<T>
    requires { caller < 64 }
    ensures taken { bag.bag_step lists.old caller callmark.Take (reply_mark T.mark result) ≡ Some lists.new }
    ensures fits { TakeFits result }
    ensures fewer { bag.item_count lists.new ≤ bag.item_count lists.old }
{
    match lists.take(caller) {
        Some(Taken { from, item }) => BagReply::Item { from, item },
        None => BagReply::Empty,
    }
}

/// The numbers of all items, the lists in order of callers.
fn numbers<T: Marked>(lists: &CallerLists<T>, alloc: Global) -> Result<Items, AllocError>
    ensures { IfOk result (λ numbers. numbers ≡ bag.all_numbers lists.now) }
{
    let mut numbers = Vec::with_capacity(alloc, lists.count() as usize)?;
    lists.add_numbers(&mut numbers)?;
    Ok(Items::from_vec(numbers))
}
