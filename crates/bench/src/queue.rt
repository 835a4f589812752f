// Threads that enqueue for threads that dequeue.
ghost use Rattle.std.specs.Prelude.{◌<◌, ◌≤◌};
ghost use Rattle.concurrent_queue.specs.Queues.{IsOf};

use crate::Trouble;
use crate::hand_over::{Outcome, Task, longest, tasks_of};
use concurrent_queue::{ConcurrentQueue, DequeueReply, EnqueueReply, QueuePass};
use pauses::Pause;
use races::{Countdown, Race, Tally};
use std::alloc::Global;
use std::sync::Wait;
use std::thread::Threads;
use std::time::{Clock, Instant};

/// Enqueues a number once there is room.
fn enqueue_one<R: Wait + Clock>(rt: &R, queue: &ConcurrentQueue, pass: &mut QueuePass, number: u64)
    requires { IsOf queue.now pass.old }
    ensures { IsOf queue.now pass.new }
{
    let mut pause = Pause::new();
    for _ in rt.forever() {
        match queue.enqueue(rt, pass, number) {
            (EnqueueReply::Done, _) => return,
            (EnqueueReply::Full, _) => pause.take(rt),
        }
    }
    unreachable!()
}

fn enqueue_all<R: Wait + Clock>(
    rt: &R,
    queue: &ConcurrentQueue,
    mut pass: QueuePass,
    from: u64,
    to: u64,
)
    requires { IsOf queue.now pass }
{
    for number in from..to {
        enqueue_one(rt, queue, &mut pass, number);
    }
}

/// Dequeues until all have enqueued and nothing is left, and sums the numbers.
fn dequeue_all<R: Wait + Clock>(
    rt: &R,
    queue: &ConcurrentQueue,
    mut pass: QueuePass,
    enqueuing: &Countdown,
) -> Option<u64>
    requires { IsOf queue.now pass }
{
    let mut sum: u64 = 0;
    let mut pause = Pause::new();
    for _ in rt.forever() {
        let are_done = enqueuing.is_over();
        match queue.dequeue(rt, &mut pass) {
            (DequeueReply::Item(number), _) => {
                sum = sum.wrapping_add(number);
                pause.reset();
            }
            (DequeueReply::Empty, _) if are_done => return Some(sum),
            (DequeueReply::Empty, _) => pause.take(rt),
        }
    }
    unreachable!()
}

/// The queue that all threads share, and how many enqueue.
#[derive(Drop)]
struct Queueing<'r> {
    queue: &'r ConcurrentQueue,
    enqueuing: &'r Countdown,
}

impl<'r> Race for Queueing<'r> {
    type Pass = QueuePass;

    type Task = Task;

    type Outcome = Outcome;

    ghost is_of = { λ race pass. IsOf race.queue.now pass };

    fn split(&self, pass: &mut QueuePass) -> Option<QueuePass> {
        if pass.spare() == 0 {
            None
        } else {
            Some(self.queue.split(pass))
        }
    }

    fn run<R: Wait + Clock>(&self, rt: &R, pass: QueuePass, task: Task) -> Outcome {
        let start = Instant::now(rt).ok();
        let sum = match task {
            Task::Write(from, to) => {
                enqueue_all(rt, self.queue, pass, from, to);
                self.enqueuing.count_off();
                Some(0)
            }
            Task::Read => dequeue_all(rt, self.queue, pass, self.enqueuing),
        };
        (start, sum)
    }
}

/// How long so many threads that enqueue and so many that dequeue take for so many numbers, through a queue
/// with room for 1,024.
pub fn nanoseconds<R: Wait + Threads + Sync + Clock>(
    rt: &R,
    alloc: Global,
    enqueuers: u64,
    dequeuers: u64,
    count: u64,
) -> Result<u64, Trouble>
    requires callers { (0 < enqueuers) × (enqueuers ≤ 32) }
    requires count { count ≤ 1000000000 }
{
    let Ok((queue, pass)) = ConcurrentQueue::new(alloc, 1024, 32, 64) else {
        return Err(Trouble::NoMemory);
    };
    let enqueuing = Countdown::new(enqueuers);
    let race = Queueing {
        queue: &queue,
        enqueuing: &enqueuing,
    };
    let tasks = tasks_of(alloc, enqueuers, dequeuers, count)?;
    let outcomes = races::run(rt, alloc, &race, pass, tasks)?;
    longest(rt, outcomes, Tally::below(count))
}
