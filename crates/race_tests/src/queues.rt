// Threads that share a queue. A start line stands before their calls, so that these overlap.
ghost use Rattle.std.specs.Prelude.{◌<◌, ◌≤◌};
ghost use Rattle.concurrent_queue.specs.Queues.{IsOf};

use crate::splits::split_queue;
use concurrent_queue::{ConcurrentQueue, DequeueReply, EnqueueReply, QueuePass};
use races::{Countdown, Race, Tally, share};
use std::alloc::Global;
use std::sync::Wait;
use std::test::Fail;
use std::thread;
use std::thread::Threads;
use std::time::Clock;

/// The queue, and how many numbers have not been dequeued.
#[derive(Drop)]
struct Queueing {
    queue: ConcurrentQueue,
    left: Countdown,
}

#[derive(Drop)]
enum Task {
    /// Enqueues each number from the first up to, and without, the second.
    Enqueue(u64, u64),
    /// Dequeues until no number is left.
    Dequeue,
    /// So often enqueues a number and then dequeues one.
    Both(u64),
}

/// What a thread dequeued. None where it met what it must not.
type Outcome = Option<Tally>;

/// Enqueues a number once there is room.
fn enqueue_one<R: Wait>(rt: &R, queue: &ConcurrentQueue, pass: &mut QueuePass, number: u64)
    requires { IsOf queue.now pass.old }
    ensures { IsOf queue.now pass.new }
{
    for _ in rt.forever() {
        match queue.enqueue(rt, pass, number) {
            (EnqueueReply::Done, _) => return,
            (EnqueueReply::Full, _) => thread::yield_now(),
        }
    }
    unreachable!()
}

fn enqueue_all<R: Wait>(rt: &R, queue: &ConcurrentQueue, mut pass: QueuePass, from: u64, to: u64)
    requires { IsOf queue.now pass }
{
    for number in from..to {
        enqueue_one(rt, queue, &mut pass, number);
    }
}

fn dequeue_all<R: Wait>(
    rt: &R,
    queue: &ConcurrentQueue,
    mut pass: QueuePass,
    left: &Countdown,
) -> Tally
    requires { IsOf queue.now pass }
{
    let mut tally = Tally::default();
    for _ in rt.forever() {
        if left.is_over() {
            return tally;
        }
        match queue.dequeue(rt, &mut pass) {
            (DequeueReply::Item(number), _) => {
                left.count_off();
                tally = tally.with(number);
            }
            (DequeueReply::Empty, _) => thread::yield_now(),
        }
    }
    unreachable!()
}

/// The number that is found after one was enqueued.
fn found<R: Wait>(rt: &R, queue: &ConcurrentQueue, pass: &mut QueuePass, number: u64) -> Option<u64>
    requires { IsOf queue.now pass.old }
    ensures { IsOf queue.now pass.new }
{
    let (enqueued, _) = queue.enqueue(rt, pass, number);
    match queue.dequeue(rt, pass) {
        (DequeueReply::Item(found), _) if enqueued == EnqueueReply::Done => Some(found),
        _ => None,
    }
}

/// Who has enqueued a number finds one.
fn enqueue_and_dequeue<R: Wait>(
    rt: &R,
    queue: &ConcurrentQueue,
    mut pass: QueuePass,
    times: u64,
) -> Outcome
    requires { IsOf queue.now pass }
{
    let mut tally = Tally::default();
    for number in 0..times {
        tally = tally.with(found(rt, queue, &mut pass, number)?);
    }
    Some(tally)
}

impl Race for Queueing {
    type Pass = QueuePass;

    type Task = Task;

    type Outcome = Outcome;

    ghost is_of = { λ race pass. IsOf race.queue pass };

    fn split(&self, pass: &mut QueuePass) -> Option<QueuePass> {
        split_queue(&self.queue, pass)
    }

    fn run<R: Wait + Clock>(&self, rt: &R, pass: QueuePass, task: Task) -> Outcome {
        match task {
            Task::Enqueue(from, to) => {
                enqueue_all(rt, &self.queue, pass, from, to);
                Some(Tally::default())
            }
            Task::Dequeue => Some(dequeue_all(rt, &self.queue, pass, &self.left)),
            Task::Both(times) => enqueue_and_dequeue(rt, &self.queue, pass, times),
        }
    }
}

/// Runs the tasks on a new queue, each in a thread, until so many numbers are dequeued.
fn run<R: Wait + Threads + Sync + Clock>(
    rt: &R,
    alloc: Global,
    room: u32,
    tasks: Vec<Task>,
    numbers: u64,
) -> Result<Outcome, Fail> {
    let Ok((queue, pass)) = ConcurrentQueue::new(alloc, room, 2, 64) else {
        return Err(Fail::new("no queue"));
    };
    let race = Queueing {
        queue,
        left: Countdown::new(numbers),
    };
    let outcomes = races::run(rt, alloc, &race, pass, tasks)?;
    Ok(Tally::of_all(outcomes.as_slice()))
}

/// Whether enqueuers and dequeuers hand over the numbers below 20,000, each once.
fn hands_over<R: Wait + Threads + Sync + Clock>(
    rt: &R,
    alloc: Global,
    room: u32,
    enqueuers: u64,
    dequeuers: u64,
) -> Result<bool, Fail>
    requires { (0 < enqueuers) × (enqueuers ≤ 31) }
{
    let count = 20_000;
    let mut tasks = Vec::new(alloc);
    for i in 0..enqueuers {
        let (from, to) = share(count, enqueuers, i);
        tasks.push(Task::Enqueue(from, to))?;
    }
    for _ in 0..dequeuers {
        tasks.push(Task::Dequeue)?;
    }
    let dequeued = run(rt, alloc, room, tasks, count)?;
    Ok(dequeued == Some(Tally::below(count)))
}

#[test]
fn each_number_is_handed_over_once(rt: HostRuntime) -> Result<(), Fail> {
    assert!(rt; hands_over(&rt, rt.alloc(), 16, 8, 8)?);
    assert!(rt; hands_over(&rt, rt.alloc(), 1_024, 1, 3)?);
    Ok(())
}

#[test]
fn who_has_enqueued_finds_an_item(rt: HostRuntime) -> Result<(), Fail> {
    let mut tasks = Vec::new(rt.alloc());
    for _ in 0..16 {
        tasks.push(Task::Both(1_000))?;
    }
    // 16 times the sum of the numbers below 1,000
    assert_eq!(rt;
        run(&rt, rt.alloc(), 16, tasks, 0)?,
        Some(Tally {
            count: 16_000,
            sum: 7_992_000,
        })
    );
    Ok(())
}
