// Passes that are dropped, at rest between two calls and before the first one. Their numbers are gone for
// good, and the callers that are left go on, also with what the others had put in.
ghost use Rattle.std.specs.Prelude.{◌≡◌, IfOk, IfSome};
ghost use Rattle.concurrent_queue.specs.Queues.{IsOf};

use crate::splits::{split_bag, split_channel, split_collection, split_queue};
use blocking_collection::{BlockingCall, BlockingCollection, BlockingReply, Store};
use channel_core::ChannelState;
use channels::{Channel, ChannelCall, ChannelReply, Mode, Pass, Receipt};
use concurrent_bag::{BagAdd, BagPass, BagTake, ConcurrentBag};
use concurrent_queue::{ConcurrentQueue, DequeueReply, EnqueueReply, QueuePass};
use std::alloc::Global;
use std::sync::Wait;
use std::test::Fail;
use turn_lock::Shared;

/// What four callers hand items over by.
trait HandOver: Drop {
    type Pass: Drop;

    /// Whether a pass is of the object.
    ghost is_of: { Self → Self.Pass → Type 0 };

    /// One with room for four items, and its first pass, which holds the numbers 0 to 3.
    fn empty(alloc: Global) -> Result<(Self, Self::Pass), Fail>
        ensures { IfOk result (λ made. is_of made.0 made.1) };

    /// Splits a pass off. None where the pass holds one number alone.
    fn split(&self, pass: &mut Self::Pass) -> Option<Self::Pass>
        requires { is_of self.now pass.old }
        ensures kept { is_of self.now pass.new }
        ensures split { IfSome result (λ other. is_of self.now other) };

    fn join(&self, pass: &mut Self::Pass, other: Self::Pass)
        requires { is_of self.now pass.old × is_of self.now other }
        ensures { is_of self.now pass.new };

    /// The number under which it calls.
    fn caller(pass: &Self::Pass) -> u32;

    /// How many numbers it holds beside its own.
    fn spare(pass: &Self::Pass) -> u32;

    /// The receipt of an item that was added, if it was.
    fn add<R: Wait>(&self, rt: &R, pass: &mut Self::Pass, item: u64) -> Option<Receipt>
        requires { is_of self.now pass.old }
        ensures { is_of self.now pass.new };

    /// An item, if there was one, with the receipt.
    fn take<R: Wait>(&self, rt: &R, pass: &mut Self::Pass) -> Option<(u64, Receipt)>
        requires { is_of self.now pass.old }
        ensures { is_of self.now pass.new };

    /// How many items there are, with the receipt.
    fn count<R: Wait>(&self, rt: &R, pass: &mut Self::Pass) -> Option<(u64, Receipt)>
        requires { is_of self.now pass.old }
        ensures { is_of self.now pass.new };
}

impl HandOver for Channel<u64> {
    type Pass = Pass;

    ghost is_of = { λ channel pass. pass.table ≡ channel };

    fn empty(alloc: Global) -> Result<(Channel<u64>, Pass), Fail> {
        let (channel, pass) = Channel::bounded(alloc, 4, Mode::Wait, 4)?;
        Ok((channel, pass))
    }

    fn split(&self, pass: &mut Pass) -> Option<Pass> {
        split_channel(self, pass)
    }

    fn join(&self, pass: &mut Pass, other: Pass) {
        self.join(pass, other)
    }

    fn caller(pass: &Pass) -> u32 {
        pass.caller()
    }

    fn spare(pass: &Pass) -> u32 {
        pass.spare()
    }

    fn add<R: Wait>(&self, rt: &R, pass: &mut Pass, item: u64) -> Option<Receipt> {
        match self.call(rt, pass, ChannelCall::Write(item)) {
            Ok((ChannelReply::Done, receipt)) => Some(receipt),
            _ => None,
        }
    }

    fn take<R: Wait>(&self, rt: &R, pass: &mut Pass) -> Option<(u64, Receipt)> {
        match self.call(rt, pass, ChannelCall::Read) {
            Ok((ChannelReply::Item(item), receipt)) => Some((item, receipt)),
            _ => None,
        }
    }

    fn count<R: Wait>(&self, rt: &R, pass: &mut Pass) -> Option<(u64, Receipt)> {
        match self.call(rt, pass, ChannelCall::Count) {
            Ok((ChannelReply::Count(count), receipt)) => Some((count, receipt)),
            _ => None,
        }
    }
}

impl HandOver for Shared<ChannelState<u64>> {
    type Pass = Pass;

    ghost is_of = { λ shared pass. pass.table ≡ shared };

    fn empty(alloc: Global) -> Result<(Shared<ChannelState<u64>>, Pass), Fail> {
        let state: ChannelState<u64> = ChannelState::bounded(alloc, 4, Mode::Wait, 4)?;
        match Shared::new(alloc, state, 4) {
            Ok(made) => Ok(made),
            Err(_) => Err(Fail::new("no memory")),
        }
    }

    fn split(&self, pass: &mut Pass) -> Option<Pass> {
        if pass.has_spare() {
            Some(self.split(pass))
        } else {
            None
        }
    }

    fn join(&self, pass: &mut Pass, other: Pass) {
        self.join(pass, other)
    }

    fn caller(pass: &Pass) -> u32 {
        pass.caller()
    }

    fn spare(pass: &Pass) -> u32 {
        pass.spare()
    }

    fn add<R: Wait>(&self, rt: &R, pass: &mut Pass, item: u64) -> Option<Receipt> {
        match self.call(rt, pass, ChannelCall::Write(item)) {
            Ok((ChannelReply::Done, receipt)) => Some(receipt),
            _ => None,
        }
    }

    fn take<R: Wait>(&self, rt: &R, pass: &mut Pass) -> Option<(u64, Receipt)> {
        match self.call(rt, pass, ChannelCall::Read) {
            Ok((ChannelReply::Item(item), receipt)) => Some((item, receipt)),
            _ => None,
        }
    }

    fn count<R: Wait>(&self, rt: &R, pass: &mut Pass) -> Option<(u64, Receipt)> {
        match self.call(rt, pass, ChannelCall::Count) {
            Ok((ChannelReply::Count(count), receipt)) => Some((count, receipt)),
            _ => None,
        }
    }
}

impl HandOver for BlockingCollection<u64> {
    type Pass = Pass;

    ghost is_of = { λ collection pass. pass.table ≡ collection };

    fn empty(alloc: Global) -> Result<(BlockingCollection<u64>, Pass), Fail> {
        let (collection, pass) = BlockingCollection::new(alloc, Store::Fifo, Some(4), 4)?;
        Ok((collection, pass))
    }

    fn split(&self, pass: &mut Pass) -> Option<Pass> {
        split_collection(self, pass)
    }

    fn join(&self, pass: &mut Pass, other: Pass) {
        self.join(pass, other)
    }

    fn caller(pass: &Pass) -> u32 {
        pass.caller()
    }

    fn spare(pass: &Pass) -> u32 {
        pass.spare()
    }

    fn add<R: Wait>(&self, rt: &R, pass: &mut Pass, item: u64) -> Option<Receipt> {
        match self.call(rt, pass, BlockingCall::Add(item)) {
            Ok((BlockingReply::Done, receipt)) => Some(receipt),
            _ => None,
        }
    }

    fn take<R: Wait>(&self, rt: &R, pass: &mut Pass) -> Option<(u64, Receipt)> {
        match self.call(rt, pass, BlockingCall::Take) {
            Ok((BlockingReply::Item(item), receipt)) => Some((item, receipt)),
            _ => None,
        }
    }

    fn count<R: Wait>(&self, rt: &R, pass: &mut Pass) -> Option<(u64, Receipt)> {
        match self.call(rt, pass, BlockingCall::Count) {
            Ok((BlockingReply::Count(count), receipt)) => Some((count, receipt)),
            _ => None,
        }
    }
}

impl HandOver for ConcurrentBag<u64> {
    type Pass = BagPass;

    ghost is_of = { λ bag pass. pass.table ≡ bag };

    fn empty(alloc: Global) -> Result<(ConcurrentBag<u64>, BagPass), Fail> {
        let (bag, pass) = ConcurrentBag::new(alloc, 4)?;
        Ok((bag, pass))
    }

    fn split(&self, pass: &mut BagPass) -> Option<BagPass> {
        split_bag(self, pass)
    }

    fn join(&self, pass: &mut BagPass, other: BagPass) {
        self.join(pass, other)
    }

    fn caller(pass: &BagPass) -> u32 {
        pass.caller()
    }

    fn spare(pass: &BagPass) -> u32 {
        pass.spare()
    }

    fn add<R: Wait>(&self, rt: &R, pass: &mut BagPass, item: u64) -> Option<Receipt> {
        match self.add(rt, pass, item) {
            Ok((BagAdd::Done, receipt)) => Some(receipt),
            _ => None,
        }
    }

    fn take<R: Wait>(&self, rt: &R, pass: &mut BagPass) -> Option<(u64, Receipt)> {
        match self.take(rt, pass) {
            (BagTake::Item { item, .. }, receipt) => Some((item, receipt)),
            (BagTake::Empty, _) => None,
        }
    }

    fn count<R: Wait>(&self, rt: &R, pass: &mut BagPass) -> Option<(u64, Receipt)> {
        Some(self.count(rt, pass))
    }
}

impl HandOver for ConcurrentQueue {
    type Pass = QueuePass;

    ghost is_of = { IsOf };

    fn empty(alloc: Global) -> Result<(ConcurrentQueue, QueuePass), Fail> {
        match ConcurrentQueue::new(alloc, 4, 8, 4) {
            Ok(made) => Ok(made),
            Err(_) => Err(Fail::new("no queue")),
        }
    }

    fn split(&self, pass: &mut QueuePass) -> Option<QueuePass> {
        split_queue(self, pass)
    }

    fn join(&self, pass: &mut QueuePass, other: QueuePass) {
        self.join(pass, other)
    }

    fn caller(pass: &QueuePass) -> u32 {
        pass.caller()
    }

    fn spare(pass: &QueuePass) -> u32 {
        pass.spare()
    }

    fn add<R: Wait>(&self, rt: &R, pass: &mut QueuePass, item: u64) -> Option<Receipt> {
        match self.enqueue(rt, pass, item) {
            (EnqueueReply::Done, receipt) => Some(receipt),
            (EnqueueReply::Full, _) => None,
        }
    }

    fn take<R: Wait>(&self, rt: &R, pass: &mut QueuePass) -> Option<(u64, Receipt)> {
        match self.dequeue(rt, pass) {
            (DequeueReply::Item(item), receipt) => Some((item, receipt)),
            (DequeueReply::Empty, _) => None,
        }
    }

    fn count<R: Wait>(&self, rt: &R, pass: &mut QueuePass) -> Option<(u64, Receipt)> {
        Some(self.count(rt, pass))
    }
}

/// Adds 7 and 8, and drops the pass. Whether these are the receipts.
fn add_and_leave<X: HandOver, R: Wait>(
    rt: &R,
    object: &X,
    mut pass: X::Pass,
    receipts: [Receipt; 2],
) -> bool
    requires { X.is_of object.now pass }
{
    let [of_seven, of_eight] = receipts;
    object.add(rt, &mut pass, 7) == Some(of_seven) && object.add(rt, &mut pass, 8) == Some(of_eight)
}

/// Whether two callers find 7 and 8, and one of them then hands 9 over to the other, with these receipts.
fn hand_over<X: HandOver, R: Wait>(
    rt: &R,
    object: &X,
    first: &mut X::Pass,
    last: &mut X::Pass,
    receipts: [Receipt; 5],
) -> bool
    requires { X.is_of object.now first.old × X.is_of object.now last.old }
    ensures { X.is_of object.now first.new × X.is_of object.now last.new }
{
    let [of_count, of_seven, of_eight, of_adding, of_nine] = receipts;
    let counted = object.count(rt, first);
    let seven = object.take(rt, last);
    let eight = object.take(rt, first);
    let added = object.add(rt, last, 9);
    let nine = object.take(rt, first);
    counted == Some((2, of_count))
        && seven == Some((7, of_seven))
        && eight == Some((8, of_eight))
        && added == Some(of_adding)
        && nine == Some((9, of_nine))
}

/// Whether the numbers of two passes are 0 and 3 when they are joined, and what is split off again counts
/// no item, with this receipt.
fn join_and_split<X: HandOver, R: Wait>(
    rt: &R,
    object: &X,
    mut first: X::Pass,
    last: X::Pass,
    receipt: Receipt,
) -> bool
    requires { X.is_of object.now first × X.is_of object.now last }
{
    object.join(&mut first, last);
    if X::caller(&first) != 0 || X::spare(&first) != 1 {
        return false;
    }
    let Some(mut again) = object.split(&mut first) else {
        return false;
    };
    X::caller(&again) == 3
        && X::spare(&first) == 0
        && object.split(&mut first).is_none()
        && object.count(rt, &mut again) == Some((0, receipt))
}

/// The receipts of a round's calls: two of the caller that leaves, five of the two that stay, and the last.
#[derive(Clone, Copy)]
struct Receipts {
    leaving: [Receipt; 2],
    staying: [Receipt; 5],
    last: Receipt,
}

/// Of four callers one leaves before its first call, and one after two. Whether the others go on, with
/// these receipts.
fn go_on<X: HandOver, R: Wait>(rt: &R, alloc: Global, receipts: Receipts) -> Result<bool, Fail> {
    let (object, mut first) = X::empty(alloc)?;
    let (Some(leaving), Some(silent), Some(mut last), None) = (
        object.split(&mut first),
        object.split(&mut first),
        object.split(&mut first),
        object.split(&mut first),
    ) else {
        return Ok(false);
    };
    drop(silent);
    Ok(
        add_and_leave(rt, &object, leaving, receipts.leaving)
            && hand_over(rt, &object, &mut first, &mut last, receipts.staying)
            && join_and_split(rt, &object, first, last, receipts.last),
    )
}

fn at(number: u64) -> Receipt {
    Receipt::Place { number }
}

/// The receipts of a history that has the round's calls alone.
fn places() -> Receipts {
    Receipts {
        leaving: [at(0), at(1)],
        staying: [at(2), at(3), at(4), at(5), at(6)],
        last: at(7),
    }
}

#[test]
fn callers_of_a_turn_lock_go_on(rt: HostRuntime) -> Result<(), Fail> {
    assert!(rt; go_on::<Shared<ChannelState<u64>>, HostRuntime>(&rt, rt.alloc(), places())?);
    Ok(())
}

#[test]
fn callers_of_a_channel_go_on(rt: HostRuntime) -> Result<(), Fail> {
    assert!(rt; go_on::<Channel<u64>, HostRuntime>(&rt, rt.alloc(), places())?);
    Ok(())
}

#[test]
fn callers_of_a_collection_go_on(rt: HostRuntime) -> Result<(), Fail> {
    assert!(rt; go_on::<BlockingCollection<u64>, HostRuntime>(&rt, rt.alloc(), places())?);
    Ok(())
}

#[test]
fn callers_of_a_bag_go_on(rt: HostRuntime) -> Result<(), Fail> {
    assert!(rt; go_on::<ConcurrentBag<u64>, HostRuntime>(&rt, rt.alloc(), places())?);
    Ok(())
}

fn enqueued(position: u64) -> Receipt {
    Receipt::Enqueued {
        position,
        segment: 0,
    }
}

fn dequeued(position: u64) -> Receipt {
    Receipt::Dequeued { position }
}

fn looked(head: u64, tail: u64) -> Receipt {
    Receipt::Looked { head, tail }
}

#[test]
fn callers_of_a_queue_go_on(rt: HostRuntime) -> Result<(), Fail> {
    let receipts = Receipts {
        leaving: [enqueued(0), enqueued(1)],
        staying: [
            looked(0, 2),
            dequeued(0),
            dequeued(1),
            enqueued(2),
            dequeued(2),
        ],
        last: looked(3, 3),
    };
    assert!(rt; go_on::<ConcurrentQueue, HostRuntime>(&rt, rt.alloc(), receipts)?);
    Ok(())
}

// A queue's pass can't be asked whether it is whole, and the queue has no `close`: so a dropped pass takes
// nothing away that the others had.
#[test]
fn an_item_of_a_dropped_pass_is_dequeued(rt: HostRuntime) -> Result<(), Fail> {
    let Ok((queue, mut first)) = ConcurrentQueue::new(rt.alloc(), 2, 2, 2) else {
        return Err(Fail::new("no queue"));
    };
    let Some(mut other) = split_queue(&queue, &mut first) else {
        return Err(Fail::new("no number is left"));
    };
    let (enqueued, _) = queue.enqueue(&rt, &mut other, 7);
    assert!(rt; matches!(enqueued, EnqueueReply::Done));
    drop(other);
    let (dequeued, _) = queue.dequeue(&rt, &mut first);
    assert!(rt; matches!(dequeued, DequeueReply::Item(7)));
    Ok(())
}

#[test]
fn no_pass_is_whole_once_one_is_dropped(rt: HostRuntime) -> Result<(), Fail> {
    let state: ChannelState<u64> = ChannelState::bounded(rt.alloc(), 1, Mode::Wait, 2)?;
    let Ok((shared, mut first)) = Shared::new(rt.alloc(), state, 2) else {
        return Err(Fail::new("no memory"));
    };
    assert!(rt; first.is_whole());
    assert!(rt; first.has_spare());
    let other = shared.split(&mut first);
    drop(other);
    assert!(rt; !first.is_whole());
    let written = shared.call(&rt, &mut first, ChannelCall::Write(4));
    assert!(rt;
        matches!(
            &written,
            Ok((ChannelReply::Done, Receipt::Place { number: 0 }))
        )
    );
    let read = shared.call(&rt, &mut first, ChannelCall::Read);
    assert!(rt;
        matches!(
            &read,
            Ok((ChannelReply::Item(4), Receipt::Place { number: 1 }))
        )
    );
    assert!(rt; !first.is_whole());
    Ok(())
}
