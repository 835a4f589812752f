// The calls of a script on a bag.
ghost use Rattle.std.specs.Prelude.{◌≡◌, ◌<◌, IfOk, OnErr};
ghost use Rattle.ho_base.specs.Marks.{number_priority};
ghost use Rattle.passes.specs.Numbers.{held_count};
ghost use Rattle.passes.specs.Calls.{AddsNoEntry, IsSamePass, Joins, Splits};
ghost use Rattle.ho_model.specs.Written.{giving, mark_of};
ghost use Rattle.ho_model.specs.declared.histories.Call.TheVariants as calls;
ghost use Rattle.concurrent_bag.specs.Answers.{take_mark};
ghost use Rattle.drive_kit.specs.Calls.{IsCallOf, kind_of};
ghost use Rattle.drive_kit.specs.Parts.{IsPlaceOf};
ghost use Rattle.drive_kit.specs.Playing.{Adds, IsOf, pass_of, without_obstacles};
ghost use Rattle.drive_kit.specs.declared.calls.Kind.TheVariants as kind;
ghost use Rattle.drive_kit.specs.declared.stands.Stand.TheVariants as stand;

use crate::stands::DrivenPass;
use concurrent_bag::{BagAdd, BagPass, BagTake, ConcurrentBag};
use ho_base::{NoMemory, Receipt};
use ho_model::{Call, Reply};
use std::alloc::Global;
use std::sync::Wait;

// Adds an item to the caller's list.
#[tactic(auto, using(crate::proofs::PassLemmas::same_without, crate::proofs::PassLemmas::none_without))]
fn add<R: Wait>(
    rt: &R,
    bag: &ConcurrentBag<u64>,
    pass: &mut BagPass,
    item: u64,
) -> Result<(Reply, Receipt), NoMemory>
    requires table { pass.old.table ≡ bag.now }
    requires kind { kind_of pass.old.object ≡ kind.Bag }
    ensures same { IsSamePass (without_obstacles pass.old) (without_obstacles pass.new) }
    ensures adds { IfOk result (λ said. Adds IsPlaceOf (without_obstacles pass.old)
        (calls.Add item) said.0 said.1 (without_obstacles pass.new)) }
    ensures adds_none { OnErr result (AddsNoEntry number_priority (without_obstacles pass.old)
        (without_obstacles pass.new)) }
{
    match bag.add(rt, pass, item) {
        Ok((BagAdd::Done, receipt)) => Ok((Reply::Done, receipt)),
        Ok((BagAdd::Full(_), receipt)) => Ok((Reply::Full, receipt)),
        Err(_) => Err(NoMemory),
    }
}

// The reply to a take, as histories write it.
fn taken(said: BagTake<u64>) -> Reply
    ensures { giving result ≡ take_mark mark_of said }
{
    match said {
        BagTake::Item { from, item } => Reply::ItemFrom(item, from),
        BagTake::Empty => Reply::Empty,
    }
}

// Makes a call of a script on a bag.
#[tactic(auto, using(crate::proofs::PassLemmas::same_without, crate::proofs::PassLemmas::none_without))]
pub(super) fn play<R: Wait>(
    rt: &R,
    alloc: Global,
    bag: &ConcurrentBag<u64>,
    pass: &mut BagPass,
    call: Call,
) -> Result<(Reply, Receipt), NoMemory>
    requires table { pass.old.table ≡ bag.now }
    requires kind { kind_of pass.old.object ≡ kind.Bag }
    requires call { IsCallOf kind.Bag call }
    ensures same { IsSamePass (without_obstacles pass.old) (without_obstacles pass.new) }
    ensures adds { IfOk result (λ said. Adds IsPlaceOf (without_obstacles pass.old) call said.0 said.1
        (without_obstacles pass.new)) }
    ensures adds_none { OnErr result (AddsNoEntry number_priority (without_obstacles pass.old)
        (without_obstacles pass.new)) }
{
    match call {
        Call::Add(item) => add(rt, bag, pass, item),
        Call::Take => {
            let (said, receipt) = bag.take(rt, pass);
            Ok((taken(said), receipt))
        }
        Call::Count => {
            let (count, receipt) = bag.count(rt, pass);
            Ok((Reply::Count(count), receipt))
        }
        Call::Snap => {
            let (numbers, receipt) = bag.snapshot(rt, alloc, pass)?;
            Ok((Reply::Numbers(numbers), receipt))
        }
        _ => unreachable!(),
    }
}

// Splits off a pass with the least number that can be given away. Takes no memory.
#[tactic(auto, using(crate::proofs::PassLemmas::splits_without))]
pub(super) fn split(bag: &ConcurrentBag<u64>, pass: &mut BagPass) -> BagPass
    requires table { pass.old.table ≡ bag.now }
    requires spare { 1 < held_count pass.old.held }
    ensures inside { result.caller < 64 }
    ensures splits { Splits (without_obstacles pass.old) (without_obstacles pass.new)
        (without_obstacles result) }
{
    let other = bag.split(pass);
    // for the proof: it tells that the number is below 64
    let _ = other.caller();
    other
}

// Takes in another pass of the bag, with its numbers. Takes no memory.
#[tactic(auto, using(crate::proofs::PassLemmas::joins_without))]
pub(super) fn take_in(bag: &ConcurrentBag<u64>, pass: &mut DrivenPass, other: DrivenPass)
    requires { IsOf (stand.Bag bag.now) pass.old × IsOf (stand.Bag bag.now) other }
    ensures of { IsOf (stand.Bag bag.now) pass.new }
    ensures joins { Joins number_priority (pass_of pass.old) (pass_of other) (pass_of pass.new) }
{
    let DrivenPass::Bag(other) = other else {
        unreachable!()
    };
    match pass {
        DrivenPass::Bag(pass) => bag.join(pass, other),
        _ => unreachable!(),
    }
}
