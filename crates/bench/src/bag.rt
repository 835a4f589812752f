// Threads that each add items to one bag and take as many.
ghost use Rattle.std.specs.Prelude.{◌≡◌, ◌<◌, ◌≤◌, IfSome};

use crate::Trouble;
use crate::hand_over::{Outcome, Task, longest, tasks_of};
use concurrent_bag::{BagAdd, BagPass, BagTake, ConcurrentBag};
use pauses::Pause;
use races::{Race, Tally};
use std::alloc::Global;
use std::sync::Wait;
use std::thread::Threads;
use std::time::{Clock, Instant};

/// How many numbers a thread adds before it takes as many.
const GROUP: u64 = 4;

/// Adds a number once the own list has room. False where that failed.
pub fn add_one<R: Wait>(rt: &R, bag: &ConcurrentBag<u64>, pass: &mut BagPass, number: u64) -> bool
    requires { pass.old.table ≡ bag.now }
    ensures { pass.new.table ≡ bag.now }
{
    let mut pause = Pause::new();
    for _ in rt.forever() {
        match bag.add(rt, pass, number) {
            Ok((BagAdd::Done, _)) => return true,
            Ok((BagAdd::Full(_), _)) => pause.take(rt),
            Err(_) => return false,
        }
    }
    unreachable!()
}

/// Takes so many items, and sums them. None where there are fewer.
fn take_some<R: Wait>(
    rt: &R,
    bag: &ConcurrentBag<u64>,
    pass: &mut BagPass,
    count: u64,
) -> Option<u64>
    requires { pass.old.table ≡ bag.now }
    ensures { pass.new.table ≡ bag.now }
{
    let mut sum: u64 = 0;
    for _ in 0..count {
        match bag.take(rt, pass) {
            (BagTake::Item { item, .. }, _) => sum = sum.wrapping_add(item),
            (BagTake::Empty, _) => return None,
        }
    }
    Some(sum)
}

/// Adds the numbers and takes as many, in groups, and sums what it took.
fn add_and_take<R: Wait>(
    rt: &R,
    bag: &ConcurrentBag<u64>,
    mut pass: BagPass,
    from: u64,
    to: u64,
) -> Option<u64>
    requires { pass.table ≡ bag.now }
{
    let mut sum: u64 = 0;
    let mut added: u64 = 0;
    for number in from..to {
        if !add_one(rt, bag, &mut pass, number) {
            return None;
        }
        added = added.wrapping_add(1);
        if added == GROUP {
            sum = sum.wrapping_add(take_some(rt, bag, &mut pass, added)?);
            added = 0;
        }
    }
    Some(sum.wrapping_add(take_some(rt, bag, &mut pass, added)?))
}

/// The bag that all threads share.
#[derive(Drop)]
struct Sharing<'r> {
    bag: &'r ConcurrentBag<u64>,
}

impl<'r> Race for Sharing<'r> {
    type Pass = BagPass;

    type Task = Task;

    type Outcome = Outcome;

    ghost is_of = { λ race pass. pass.table ≡ race.bag.now };

    fn split(&self, pass: &mut BagPass) -> Option<BagPass> {
        split_off(self.bag, pass)
    }

    fn run<R: Wait + Clock>(&self, rt: &R, pass: BagPass, task: Task) -> Outcome {
        let start = Instant::now(rt).ok();
        let sum = match task {
            Task::Write(from, to) => add_and_take(rt, self.bag, pass, from, to),
            Task::Read => None,
        };
        (start, sum)
    }
}

/// Splits a pass off, if a number is left.
pub fn split_off(bag: &ConcurrentBag<u64>, pass: &mut BagPass) -> Option<BagPass>
    requires { pass.old.table ≡ bag.now }
    ensures kept { pass.new.table ≡ bag.now }
    ensures split { IfSome result (λ other. other.table ≡ bag.now) }
{
    if pass.spare() == 0 {
        None
    } else {
        Some(bag.split(pass))
    }
}

/// How long so many threads take to add so many items, four at a time, and to take as many.
pub fn nanoseconds<R: Wait + Threads + Sync + Clock>(
    rt: &R,
    alloc: Global,
    threads: u64,
    count: u64,
) -> Result<u64, Trouble>
    requires callers { (0 < threads) × (threads ≤ 32) }
    requires count { count ≤ 1000000000 }
{
    let (bag, pass) = ConcurrentBag::new(alloc, 64)?;
    let race = Sharing { bag: &bag };
    let tasks = tasks_of(alloc, threads, 0, count)?;
    let outcomes = races::run(rt, alloc, &race, pass, tasks)?;
    longest(rt, outcomes, Tally::below(count))
}
