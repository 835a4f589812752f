// Threads that each enqueue a number and dequeue one, on one queue.
ghost use Rattle.std.specs.Prelude.{◌<◌, ◌≤◌};
ghost use Rattle.concurrent_queue.specs.Queues.{IsOf};

use crate::Trouble;
use crate::hand_over::{Outcome, Task, longest, tasks_of};
use concurrent_queue::{ConcurrentQueue, DequeueReply, EnqueueReply, QueuePass};
use races::{Countdown, Race, Tally};
use std::alloc::Global;
use std::sync::Wait;
use std::thread::Threads;
use std::time::{Clock, Instant};

/// Enqueues a number, and gives the one that it dequeues then.
fn pair<R: Wait>(rt: &R, queue: &ConcurrentQueue, pass: &mut QueuePass, number: u64) -> Option<u64>
    requires { IsOf queue.now pass.old }
    ensures { IsOf queue.now pass.new }
{
    let (enqueued, _) = queue.enqueue(rt, pass, number);
    match queue.dequeue(rt, pass) {
        (DequeueReply::Item(item), _) if enqueued == EnqueueReply::Done => Some(item),
        _ => None,
    }
}

/// Makes a pair for each number, and sums what it dequeued.
fn pair_all<R: Wait>(
    rt: &R,
    queue: &ConcurrentQueue,
    mut pass: QueuePass,
    from: u64,
    to: u64,
) -> Option<u64>
    requires { IsOf queue.now pass }
{
    let mut sum: u64 = 0;
    for number in from..to {
        sum = sum.wrapping_add(pair(rt, queue, &mut pass, number)?);
    }
    Some(sum)
}

/// Counts the items until all pairs are made.
fn count_all<R: Wait>(
    rt: &R,
    queue: &ConcurrentQueue,
    mut pass: QueuePass,
    pairing: &Countdown,
) -> Option<u64>
    requires { IsOf queue.now pass }
{
    for _ in rt.forever() {
        if pairing.is_over() {
            return Some(0);
        }
        let _ = queue.count(rt, &mut pass);
    }
    unreachable!()
}

/// The queue that all threads share, and how many make pairs.
#[derive(Drop)]
struct Pairs<'r> {
    queue: &'r ConcurrentQueue,
    pairing: &'r Countdown,
}

impl<'r> Race for Pairs<'r> {
    type Pass = QueuePass;

    type Task = Task;

    type Outcome = Outcome;

    ghost is_of = { λ race pass. IsOf race.queue.now pass };

    fn split(&self, pass: &mut QueuePass) -> Option<QueuePass> {
        if pass.spare() == 0 {
            None
        } else {
            Some(self.queue.split(pass))
        }
    }

    fn run<R: Wait + Clock>(&self, rt: &R, pass: QueuePass, task: Task) -> Outcome {
        let start = Instant::now(rt).ok();
        let sum = match task {
            Task::Write(from, to) => {
                let sum = pair_all(rt, self.queue, pass, from, to);
                self.pairing.count_off();
                sum
            }
            Task::Read => count_all(rt, self.queue, pass, self.pairing),
        };
        (start, sum)
    }
}

/// How long so many threads take to make so many pairs on a queue whose first segment has `first_len` slots,
/// while others count its items all the time.
pub fn nanoseconds<R: Wait + Threads + Sync + Clock>(
    rt: &R,
    alloc: Global,
    first_len: u32,
    threads: u64,
    counters: u64,
    count: u64,
) -> Result<u64, Trouble>
    requires callers { (0 < threads) × (threads ≤ 32) }
    requires count { count ≤ 1000000000 }
{
    let Ok((queue, pass)) = ConcurrentQueue::new(alloc, 1024, first_len, 64) else {
        return Err(Trouble::NoMemory);
    };
    let pairing = Countdown::new(threads);
    let race = Pairs {
        queue: &queue,
        pairing: &pairing,
    };
    let tasks = tasks_of(alloc, threads, counters, count)?;
    let outcomes = races::run(rt, alloc, &race, pass, tasks)?;
    longest(rt, outcomes, Tally::below(count))
}
