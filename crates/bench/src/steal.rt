// Takers that steal what one thread adds to a bag.
ghost use Rattle.std.specs.Prelude.{◌≡◌, ◌<◌, ◌≤◌};

use crate::Trouble;
use crate::bag::{add_one, split_off};
use crate::hand_over::{Outcome, Task, longest, tasks_of};
use concurrent_bag::{BagPass, BagTake, ConcurrentBag};
use pauses::Pause;
use races::{Countdown, Race, Tally};
use std::alloc::Global;
use std::sync::Wait;
use std::thread::Threads;
use std::time::{Clock, Instant};

fn add_all<R: Wait>(
    rt: &R,
    bag: &ConcurrentBag<u64>,
    mut pass: BagPass,
    from: u64,
    to: u64,
) -> Option<u64>
    requires { pass.table ≡ bag.now }
{
    for number in from..to {
        if !add_one(rt, bag, &mut pass, number) {
            return None;
        }
    }
    Some(0)
}

/// Takes until no item is left, and sums what it took.
fn steal_all<R: Wait>(
    rt: &R,
    bag: &ConcurrentBag<u64>,
    mut pass: BagPass,
    left: &Countdown,
) -> Option<u64>
    requires { pass.table ≡ bag.now }
{
    let mut sum: u64 = 0;
    let mut pause = Pause::new();
    for _ in rt.forever() {
        match bag.take(rt, &mut pass) {
            (BagTake::Item { item, .. }, _) => {
                left.count_off();
                sum = sum.wrapping_add(item);
                pause.reset();
            }
            (BagTake::Empty, _) if left.is_over() => return Some(sum),
            (BagTake::Empty, _) => pause.take(rt),
        }
    }
    unreachable!()
}

/// What the adder and the takers share: the bag, and the count of the items that are to be taken, which
/// stands apart from the words of the bag.
#[derive(Drop)]
struct Stealing<'r> {
    bag: &'r ConcurrentBag<u64>,
    left: &'r Countdown,
}

impl<'r> Race for Stealing<'r> {
    type Pass = BagPass;

    type Task = Task;

    type Outcome = Outcome;

    ghost is_of = { λ race pass. pass.table ≡ race.bag.now };

    fn split(&self, pass: &mut BagPass) -> Option<BagPass> {
        split_off(self.bag, pass)
    }

    fn run<R: Wait + Clock>(&self, rt: &R, pass: BagPass, task: Task) -> Outcome {
        let start = Instant::now(rt).ok();
        let sum = match task {
            Task::Write(from, to) => add_all(rt, self.bag, pass, from, to),
            Task::Read => steal_all(rt, self.bag, pass, self.left),
        };
        (start, sum)
    }
}

/// How long so many takers take to steal so many items that one thread adds.
pub fn nanoseconds<R: Wait + Threads + Sync + Clock>(
    rt: &R,
    alloc: Global,
    takers: u64,
    count: u64,
) -> Result<u64, Trouble>
    requires callers { takers ≤ 32 }
    requires count { count ≤ 1000000000 }
{
    let (bag, pass) = ConcurrentBag::new(alloc, 64)?;
    let race = Stealing {
        bag: &bag,
        left: &Countdown::new(count),
    };
    let tasks = tasks_of(alloc, 1, takers, count)?;
    let outcomes = races::run(rt, alloc, &race, pass, tasks)?;
    longest(rt, outcomes, Tally::below(count))
}
