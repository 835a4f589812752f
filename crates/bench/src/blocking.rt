// Adders that hand numbers to takers through a blocking collection.
ghost use Rattle.std.specs.Prelude.{◌≡◌, ◌<◌, ◌≤◌};

use crate::Trouble;
use crate::hand_over::{Outcome, Task, longest, tasks_of};
use blocking_collection::{AddReply, BlockingCollection, Member, Pass, Store, TakeReply};
use cancel_flag::{CancelToken, cancel_pair};
use races::{Countdown, Race, Tally};
use std::alloc::Global;
use std::sync::Wait;
use std::thread::Threads;
use std::time::{Clock, Instant};

/// Adds the numbers, and ends adding as the last adder.
fn add_all<R: Wait>(
    rt: &R,
    member: &mut Member<'_, u64>,
    token: &mut CancelToken,
    adders: &Countdown,
    from: u64,
    to: u64,
) -> Option<u64> {
    for number in from..to {
        let Ok(AddReply::Done) = member.add(rt, number, token) else {
            return None;
        };
    }
    if adders.count_off() {
        member.complete_adding(rt);
    }
    Some(0)
}

/// Takes to the end, and sums what it took.
fn take_all<R: Wait>(rt: &R, member: &mut Member<'_, u64>, token: &mut CancelToken) -> Option<u64> {
    let mut sum: u64 = 0;
    for _ in rt.forever() {
        match member.take(rt, token) {
            TakeReply::Item(number) => sum = sum.wrapping_add(number),
            TakeReply::Ended => return Some(sum),
            _ => return None,
        }
    }
    unreachable!()
}

/// What adders and takers share.
#[derive(Drop)]
struct Blocking<'r> {
    alloc: Global,
    collection: &'r BlockingCollection<u64>,
    adders: &'r Countdown,
}

impl<'r> Race for Blocking<'r> {
    type Pass = Pass;

    type Task = Task;

    type Outcome = Outcome;

    ghost is_of = { λ race pass. pass.table ≡ race.collection.now };

    fn split(&self, pass: &mut Pass) -> Option<Pass> {
        if pass.has_spare() {
            Some(self.collection.split(pass))
        } else {
            None
        }
    }

    fn run<R: Wait + Clock>(&self, rt: &R, pass: Pass, task: Task) -> Outcome {
        let start = Instant::now(rt).ok();
        let Ok((_source, mut token)) = cancel_pair(self.alloc) else {
            return (start, None);
        };
        let mut member = Member::new(self.collection, pass);
        let sum = match task {
            Task::Write(from, to) => { add_all(rt, &mut member, &mut token, self.adders, from, to) }
            Task::Read => take_all(rt, &mut member, &mut token),
        };
        (start, sum)
    }
}

/// How long adders take to hand so many numbers to takers through a collection with bound 1024.
pub fn nanoseconds<R: Wait + Threads + Sync + Clock>(
    rt: &R,
    alloc: Global,
    adders: u64,
    takers: u64,
    count: u64,
) -> Result<u64, Trouble>
    requires callers { (0 < adders) × (adders ≤ 32) × (takers ≤ 32) }
    requires count { count ≤ 1000000000 }
{
    let (collection, pass) = BlockingCollection::new(alloc, Store::Fifo, Some(1024), 64)?;
    let race = Blocking {
        alloc,
        collection: &collection,
        adders: &Countdown::new(adders),
    };
    let tasks = tasks_of(alloc, adders, takers, count)?;
    let outcomes = races::run(rt, alloc, &race, pass, tasks)?;
    longest(rt, outcomes, Tally::below(count))
}
