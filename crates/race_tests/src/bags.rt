// Threads that share a bag. A start line stands before their calls, so that these overlap.
ghost use Rattle.std.specs.Prelude.{◌≡◌, ◌<◌, ◌≤◌};

use crate::splits::split_bag;
use concurrent_bag::{BagAdd, BagPass, BagTake, ConcurrentBag};
use races::{Countdown, Race, Tally, share};
use std::alloc::Global;
use std::sync::Wait;
use std::test::Fail;
use std::thread;
use std::thread::Threads;
use std::time::Clock;

/// The bag, and how many numbers have not been taken.
#[derive(Drop)]
struct Bagging {
    bag: ConcurrentBag<u64>,
    left: Countdown,
}

#[derive(Drop)]
enum Task {
    /// Adds each number from the first up to, and without, the second.
    Add(u64, u64),
    /// Takes until no number is left.
    Take,
    /// So often adds a number and then takes one.
    Both(u64),
}

/// What a thread took. None where it met what it must not.
type Outcome = Option<Tally>;

/// Adds a number. False where that failed.
fn add_one<R: Wait>(rt: &R, bag: &ConcurrentBag<u64>, pass: &mut BagPass, number: u64) -> bool
    requires { pass.old.table ≡ bag.now }
    ensures { pass.new.table ≡ bag.now }
{
    matches!(bag.add(rt, pass, number), Ok((BagAdd::Done, _)))
}

/// Adds the numbers. Where that failed those who take do not wait for the others.
fn add_all<R: Wait>(
    rt: &R,
    bag: &ConcurrentBag<u64>,
    mut pass: BagPass,
    from: u64,
    to: u64,
    left: &Countdown,
) -> Outcome
    requires { pass.table ≡ bag.now }
{
    for number in from..to {
        if !add_one(rt, bag, &mut pass, number) {
            left.give_up();
            return None;
        }
    }
    Some(Tally::default())
}

fn take_all<R: Wait>(rt: &R, bag: &ConcurrentBag<u64>, mut pass: BagPass, left: &Countdown) -> Tally
    requires { pass.table ≡ bag.now }
{
    let mut tally = Tally::default();
    for _ in rt.forever() {
        if left.is_over() {
            return tally;
        }
        match bag.take(rt, &mut pass) {
            (BagTake::Item { item, .. }, _) => {
                left.count_off();
                tally = tally.with(item);
            }
            (BagTake::Empty, _) => thread::yield_now(),
        }
    }
    unreachable!()
}

/// The number that is found after one was added.
fn found<R: Wait>(rt: &R, bag: &ConcurrentBag<u64>, pass: &mut BagPass, number: u64) -> Option<u64>
    requires { pass.old.table ≡ bag.now }
    ensures { pass.new.table ≡ bag.now }
{
    let added = add_one(rt, bag, pass, number);
    match bag.take(rt, pass) {
        (BagTake::Item { item, .. }, _) if added => Some(item),
        _ => None,
    }
}

/// Who has added a number finds one.
fn add_and_take<R: Wait>(rt: &R, bag: &ConcurrentBag<u64>, mut pass: BagPass, times: u64) -> Outcome
    requires { pass.table ≡ bag.now }
{
    let mut tally = Tally::default();
    for number in 0..times {
        tally = tally.with(found(rt, bag, &mut pass, number)?);
    }
    Some(tally)
}

impl Race for Bagging {
    type Pass = BagPass;

    type Task = Task;

    type Outcome = Outcome;

    ghost is_of = { λ race pass. pass.table ≡ race.bag };

    fn split(&self, pass: &mut BagPass) -> Option<BagPass> {
        split_bag(&self.bag, pass)
    }

    fn run<R: Wait + Clock>(&self, rt: &R, pass: BagPass, task: Task) -> Outcome {
        match task {
            Task::Add(from, to) => add_all(rt, &self.bag, pass, from, to, &self.left),
            Task::Take => Some(take_all(rt, &self.bag, pass, &self.left)),
            Task::Both(times) => add_and_take(rt, &self.bag, pass, times),
        }
    }
}

/// Runs the tasks on a new bag, each in a thread, until so many numbers are taken.
fn run<R: Wait + Threads + Sync + Clock>(
    rt: &R,
    alloc: Global,
    tasks: Vec<Task>,
    numbers: u64,
) -> Result<Outcome, Fail> {
    let (bag, pass) = ConcurrentBag::new(alloc, 64)?;
    let race = Bagging {
        bag,
        left: Countdown::new(numbers),
    };
    let outcomes = races::run(rt, alloc, &race, pass, tasks)?;
    Ok(Tally::of_all(outcomes.as_slice()))
}

/// Whether adders and takers hand over the numbers below 16,000, each once. No list becomes full.
fn hands_over<R: Wait + Threads + Sync + Clock>(
    rt: &R,
    alloc: Global,
    adders: u64,
    takers: u64,
) -> Result<bool, Fail>
    requires { (0 < adders) × (adders ≤ 32) }
{
    let count = 16_000;
    let mut tasks = Vec::new(alloc);
    for i in 0..adders {
        let (from, to) = share(count, adders, i);
        tasks.push(Task::Add(from, to))?;
    }
    for _ in 0..takers {
        tasks.push(Task::Take)?;
    }
    let taken = run(rt, alloc, tasks, count)?;
    Ok(taken == Some(Tally::below(count)))
}

#[test]
fn each_number_is_handed_over_once(rt: HostRuntime) -> Result<(), Fail> {
    assert!(rt; hands_over(&rt, rt.alloc(), 8, 8)?);
    assert!(rt; hands_over(&rt, rt.alloc(), 1, 3)?);
    Ok(())
}

#[test]
fn who_has_added_finds_an_item(rt: HostRuntime) -> Result<(), Fail> {
    let mut tasks = Vec::new(rt.alloc());
    for _ in 0..16 {
        tasks.push(Task::Both(1_000))?;
    }
    // 16 times the sum of the numbers below 1,000
    assert_eq!(rt;
        run(&rt, rt.alloc(), tasks, 0)?,
        Some(Tally {
            count: 16_000,
            sum: 7_992_000,
        })
    );
    Ok(())
}
