// Threads that share a collection. A start line stands before their calls, so that these overlap.
ghost use Rattle.std.specs.Prelude.{◌≡◌, ◌<◌, ◌≤◌};
ghost use Rattle.std.specs.Option.{ForSome};

use crate::splits::split_collection;
use blocking_collection::{AddReply, BlockingCollection, Member, Pass, Store, TakeReply};
use cancel_flag::{CancelToken, cancel_pair};
use races::{Countdown, Race, Tally, share};
use std::alloc::Global;
use std::sync::Wait;
use std::test::Fail;
use std::thread::Threads;
use std::time::Clock;

/// The collection, and the adders that have not ended.
#[derive(Drop)]
struct Blocking {
    collection: BlockingCollection<u64>,
    adders: Countdown,
}

#[derive(Drop)]
enum Task {
    /// Adds each number from the first up to, and without, the second, until adding has ended.
    Add(u64, u64),
    /// Takes to the end, or so many and then ends adding.
    Take(u64),
    /// So often adds a number and then takes one.
    Both(u64),
}

/// What a thread does, with the token of its calls. It is there before any thread starts, so that none
/// ends for want of it while others wait for what it was to do.
#[derive(Drop)]
struct Job {
    token: CancelToken,
    task: Task,
}

/// What a thread added, and what it took. None where it met what it must not.
type Outcome = Option<(Tally, Tally)>;

fn add_all<R: Wait>(
    rt: &R,
    member: &mut Member<'_, u64>,
    token: &mut CancelToken,
    from: u64,
    to: u64,
) -> Option<Tally> {
    let mut added = Tally::default();
    for number in from..to {
        match member.add(rt, number, token) {
            Ok(AddReply::Done) => added = added.with(number),
            Ok(AddReply::Closed(back)) if back == number => return Some(added),
            _ => return None,
        }
    }
    Some(added)
}

fn take_up_to<R: Wait>(
    rt: &R,
    member: &mut Member<'_, u64>,
    token: &mut CancelToken,
    most: u64,
) -> Option<Tally> {
    let mut taken = Tally::default();
    for _ in 0..most {
        match member.take(rt, token) {
            TakeReply::Item(number) => taken = taken.with(number),
            TakeReply::Ended => return Some(taken),
            _ => return None,
        }
    }
    member.complete_adding(rt);
    Some(taken)
}

/// Who has added a number finds one.
fn add_and_take<R: Wait>(rt: &R, member: &mut Member<'_, u64>, times: u64) -> Outcome {
    let mut added = Tally::default();
    let mut taken = Tally::default();
    for number in 0..times {
        let (Ok(AddReply::Done), TakeReply::Item(found)) = (
            member.try_add(rt, number),
            member.try_take(rt),
        ) else {
            return None;
        };
        added = added.with(number);
        taken = taken.with(found);
    }
    Some((added, taken))
}

/// Adds a thread's numbers. The last adder to end ends adding, also where an add failed.
fn add_as_one_of<R: Wait>(
    rt: &R,
    member: &mut Member<'_, u64>,
    token: &mut CancelToken,
    adders: &Countdown,
    from: u64,
    to: u64,
) -> Option<Tally> {
    let added = add_all(rt, member, token, from, to);
    if adders.count_off() {
        member.complete_adding(rt);
    }
    added
}

impl Race for Blocking {
    type Pass = Pass;

    type Task = Job;

    type Outcome = Outcome;

    ghost is_of = { λ race pass. pass.table ≡ race.collection };

    fn split(&self, pass: &mut Pass) -> Option<Pass> {
        split_collection(&self.collection, pass)
    }

    fn run<R: Wait + Clock>(&self, rt: &R, pass: Pass, job: Job) -> Outcome {
        let Job { mut token, task } = job;
        let mut member = Member::new(&self.collection, pass);
        match task {
            Task::Add(from, to) => {
                let added = add_as_one_of(rt, &mut member, &mut token, &self.adders, from, to)?;
                Some((added, Tally::default()))
            }
            Task::Take(most) => {
                let taken = take_up_to(rt, &mut member, &mut token, most)?;
                Some((Tally::default(), taken))
            }
            Task::Both(times) => add_and_take(rt, &mut member, times),
        }
    }
}

/// A job for each task, each with a token of its own, which nobody sets.
fn jobs_of(alloc: Global, tasks: Vec<Task>) -> Result<Vec<Job>, Fail> {
    let mut jobs = Vec::new(alloc);
    for task in tasks {
        let (_source, token) = cancel_pair(alloc)?;
        jobs.push(Job { token, task })?;
    }
    Ok(jobs)
}

/// What all threads together added and took.
fn total(outcomes: &[Outcome]) -> Outcome {
    let mut added = Tally::default();
    let mut taken = Tally::default();
    for outcome in outcomes {
        let (more_added, more_taken) = (*outcome)?;
        added = added.and(more_added);
        taken = taken.and(more_taken);
    }
    Some((added, taken))
}

/// Runs the tasks on a new collection, each in a thread.
fn run<R: Wait + Threads + Sync + Clock>(
    rt: &R,
    alloc: Global,
    store: Store,
    bound: Option<u32>,
    tasks: Vec<Task>,
    adders: u64,
) -> Result<(Tally, Tally), Fail>
    requires { ForSome bound (λ n. (0 < n) × (n ≤ 65536)) }
{
    let (collection, pass) = BlockingCollection::new(alloc, store, bound, 64)?;
    let race = Blocking {
        collection,
        adders: Countdown::new(adders),
    };
    let jobs = jobs_of(alloc, tasks)?;
    let outcomes = races::run(rt, alloc, &race, pass, jobs)?;
    match total(outcomes.as_slice()) {
        Some(amounts) => Ok(amounts),
        None => Err(Fail::new("a thread met what it must not")),
    }
}

/// Adders of the numbers below `count`, each of its part.
fn adders_of(alloc: Global, adders: u64, count: u64) -> Result<Vec<Task>, Fail>
    requires { (0 < adders) × (adders ≤ 32) × (count ≤ 1000000) }
{
    let mut tasks = Vec::new(alloc);
    for i in 0..adders {
        let (from, to) = share(count, adders, i);
        tasks.push(Task::Add(from, to))?;
    }
    Ok(tasks)
}

/// Whether adders and takers hand over the numbers below `count`, each once.
fn hands_over<R: Wait + Threads + Sync + Clock>(
    rt: &R,
    alloc: Global,
    store: Store,
    bound: Option<u32>,
    adders: u64,
    takers: u64,
) -> Result<bool, Fail>
    requires bound { ForSome bound (λ n. (0 < n) × (n ≤ 65536)) }
    requires adders { (0 < adders) × (adders ≤ 32) }
{
    let count = 20_000;
    let mut tasks = adders_of(alloc, adders, count)?;
    for _ in 0..takers {
        tasks.push(Task::Take(u64::MAX))?;
    }
    let all = Tally::below(count);
    Ok(run(rt, alloc, store, bound, tasks, adders)? == (all, all))
}

#[test]
fn each_number_is_handed_over_once(rt: HostRuntime) -> Result<(), Fail> {
    assert!(rt; hands_over(&rt, rt.alloc(), Store::Fifo, Some(16), 8, 8)?);
    assert!(rt; hands_over(&rt, rt.alloc(), Store::Lifo, Some(1024), 1, 3)?);
    assert!(rt; hands_over(&rt, rt.alloc(), Store::Bag, None, 4, 4)?);
    Ok(())
}

/// Whether each of 16 threads finds an item whenever it has added one.
fn finds_items<R: Wait + Threads + Sync + Clock>(
    rt: &R,
    alloc: Global,
    store: Store,
    bound: Option<u32>,
) -> Result<bool, Fail>
    requires { ForSome bound (λ n. (0 < n) × (n ≤ 65536)) }
{
    let mut tasks = Vec::new(alloc);
    for _ in 0..16 {
        tasks.push(Task::Both(500))?;
    }
    let (added, taken) = run(rt, alloc, store, bound, tasks, 0)?;
    Ok(added == taken && added.count == 8_000)
}

#[test]
fn who_has_added_finds_an_item(rt: HostRuntime) -> Result<(), Fail> {
    assert!(rt; finds_items(&rt, rt.alloc(), Store::Fifo, Some(16))?);
    assert!(rt; finds_items(&rt, rt.alloc(), Store::Lifo, None)?);
    assert!(rt; finds_items(&rt, rt.alloc(), Store::Bag, None)?);
    Ok(())
}

#[test]
fn what_is_accepted_before_the_end_is_taken(rt: HostRuntime) -> Result<(), Fail> {
    let mut tasks = adders_of(rt.alloc(), 4, 20_000)?;
    tasks.push(Task::Take(2_000))?;
    tasks.push(Task::Take(u64::MAX))?;
    let (added, taken) = run(&rt, rt.alloc(), Store::Fifo, Some(64), tasks, 4)?;
    assert_eq!(rt; added, taken);
    assert!(rt; 2_000 <= taken.count);
    Ok(())
}
