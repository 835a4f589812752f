// Threads that add to any of two collections, and take from any of them. A start line stands before
// their calls, so that these overlap.
ghost use Rattle.std.specs.Prelude.{◌<◌, ◌≤◌, IfSome};
ghost use Rattle.blocking_collection.specs.Several.{AllOf};

use blocking_collection::{
    AnyAdd, AnyTake, BlockingCall, BlockingCollection, Pass, Store, add_any, take_any, try_add_any,
};
use cancel_flag::{CancelToken, cancel_pair};
use races::{Countdown, Race, Tally, share};
use std::alloc::Global;
use std::sync::Wait;
use std::test::Fail;
use std::thread::Threads;
use std::time::Clock;

/// Both collections, and the adders that have not ended.
#[derive(Drop)]
struct AnyCalls {
    collections: [BlockingCollection<u64>; 2],
    adders: Countdown,
}

#[derive(Drop)]
enum Task {
    /// Adds each number from the first up to, and without, the second.
    Add(u64, u64),
    /// Takes until both collections have ended.
    Take,
}

/// What a thread does, with the token of its calls, which nobody sets.
#[derive(Drop)]
struct Job {
    token: CancelToken,
    task: Task,
}

/// What a thread took. None where it met what it must not.
type Outcome = Option<Tally>;

/// Splits a pass of each collection off, if a number is left in both.
fn split_both(
    collections: &[BlockingCollection<u64>; 2],
    passes: &mut [Pass; 2],
) -> Option<[Pass; 2]>
    requires { AllOf collections.now passes.old }
    ensures kept { AllOf collections.now passes.new }
    ensures split { IfSome result (λ others. AllOf collections.now others) }
{
    if passes[0].has_spare() && passes[1].has_spare() {
        let first = collections[0].split(&mut passes[0]);
        let second = collections[1].split(&mut passes[1]);
        Some([first, second])
    } else {
        None
    }
}

/// Adds a number to any of them. Every other one is first tried once.
fn add_one<R: Wait>(
    rt: &R,
    collections: &[BlockingCollection<u64>],
    passes: &mut [Pass],
    token: &mut CancelToken,
    number: u64,
) -> bool
    requires { AllOf collections.now passes.old }
    ensures { AllOf collections.now passes.new }
{
    if number % 2 == 0 {
        match try_add_any(rt, collections, passes, number) {
            Ok(AnyAdd::Index(_)) => return true,
            Ok(AnyAdd::NoneUsed(back)) if back == number => {}
            _ => return false,
        }
    }
    matches!(
        add_any(rt, collections, passes, number, token),
        Ok(AnyAdd::Index(_))
    )
}

fn add_all<R: Wait>(
    rt: &R,
    collections: &[BlockingCollection<u64>],
    passes: &mut [Pass],
    token: &mut CancelToken,
    from: u64,
    to: u64,
) -> Outcome
    requires { AllOf collections.now passes.old }
    ensures { AllOf collections.now passes.new }
{
    for number in from..to {
        if !add_one(rt, collections, passes, token, number) {
            return None;
        }
    }
    Some(Tally::default())
}

fn take_all<R: Wait>(
    rt: &R,
    collections: &[BlockingCollection<u64>],
    passes: &mut [Pass],
    token: &mut CancelToken,
) -> Outcome
    requires { AllOf collections.now passes.old }
{
    let mut taken = Tally::default();
    for _ in rt.forever() {
        match take_any(rt, collections, passes, token) {
            AnyTake::Index(_, number) => taken = taken.with(number),
            AnyTake::Ended => return Some(taken),
            _ => return None,
        }
    }
    unreachable!()
}

/// Ends adding to each collection.
fn end_adding<R: Wait>(rt: &R, collections: &[BlockingCollection<u64>; 2], passes: &mut [Pass; 2])
    requires { AllOf collections.now passes.old }
{
    let _first = collections[0].call(rt, &mut passes[0], BlockingCall::CompleteAdding);
    let _second = collections[1].call(rt, &mut passes[1], BlockingCall::CompleteAdding);
}

impl Race for AnyCalls {
    type Pass = [Pass; 2];

    type Task = Job;

    type Outcome = Outcome;

    ghost is_of = { λ race passes. AllOf race.collections passes };

    fn split(&self, passes: &mut [Pass; 2]) -> Option<[Pass; 2]> {
        split_both(&self.collections, passes)
    }

    fn run<R: Wait + Clock>(&self, rt: &R, mut passes: [Pass; 2], job: Job) -> Outcome {
        let Job { mut token, task } = job;
        match task {
            Task::Add(from, to) => {
                let added = add_all(rt, &self.collections, &mut passes, &mut token, from, to);
                if self.adders.count_off() {
                    end_adding(rt, &self.collections, &mut passes);
                }
                added
            }
            Task::Take => take_all(rt, &self.collections, &mut passes, &mut token),
        }
    }
}

/// So many adders of the numbers below `count`, each of its part, and so many takers.
fn jobs_of(alloc: Global, adders: u64, takers: u64, count: u64) -> Result<Vec<Job>, Fail>
    requires { (0 < adders) × (adders ≤ 32) × (count ≤ 1000000) }
{
    let mut jobs = Vec::new(alloc);
    for i in 0..adders {
        let (from, to) = share(count, adders, i);
        let (_source, token) = cancel_pair(alloc)?;
        let task = Task::Add(from, to);
        jobs.push(Job { token, task })?;
    }
    for _ in 0..takers {
        let (_source, token) = cancel_pair(alloc)?;
        let task = Task::Take;
        jobs.push(Job { token, task })?;
    }
    Ok(jobs)
}

/// Whether adders and takers hand over the numbers below `count` through two collections, each once.
fn hands_over<R: Wait + Threads + Sync + Clock>(
    rt: &R,
    alloc: Global,
    bound: u32,
    callers: u64,
    count: u64,
) -> Result<bool, Fail>
    requires bound { (0 < bound) × (bound ≤ 65536) }
    requires callers { (0 < callers) × (callers ≤ 32) }
    requires count { count ≤ 1000000 }
{
    let (first, first_pass) = BlockingCollection::new(alloc, Store::Fifo, Some(bound), 64)?;
    let (second, second_pass) = BlockingCollection::new(alloc, Store::Lifo, Some(bound), 64)?;
    let race = AnyCalls {
        collections: [first, second],
        adders: Countdown::new(callers),
    };
    let jobs = jobs_of(alloc, callers, callers, count)?;
    let outcomes = races::run(rt, alloc, &race, [first_pass, second_pass], jobs)?;
    Ok(Tally::of_all(outcomes.as_slice()) == Some(Tally::below(count)))
}

#[test]
fn each_number_is_handed_over_once(rt: HostRuntime) -> Result<(), Fail> {
    assert!(rt; hands_over(&rt, rt.alloc(), 16, 2, 4_000)?);
    assert!(rt; hands_over(&rt, rt.alloc(), 1, 4, 1_000)?);
    Ok(())
}
