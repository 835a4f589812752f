// One caller that fills a queue and drains it.
ghost use Rattle.std.specs.Prelude.{◌≤◌};
ghost use Rattle.concurrent_queue.specs.Queues.{IsOf};

use crate::Trouble;
use concurrent_queue::{ConcurrentQueue, DequeueReply, EnqueueReply, QueuePass};
use races::{Tally, nanoseconds_since};
use std::alloc::Global;
use std::sync::Wait;
use std::time::{Clock, Instant};

/// How many numbers stand in the queue before it is drained.
const DEPTH: u64 = 60_000;

/// Whether each number from the first up to, and without, the second found room.
fn fill<R: Wait>(rt: &R, queue: &ConcurrentQueue, pass: &mut QueuePass, from: u64, to: u64) -> bool
    requires { IsOf queue.now pass.old }
    ensures { IsOf queue.now pass.new }
{
    for number in from..to {
        let (enqueued, _) = queue.enqueue(rt, pass, number);
        if enqueued == EnqueueReply::Full {
            return false;
        }
    }
    true
}

/// The sum of so many numbers that are dequeued, if there are as many.
fn drain<R: Wait>(rt: &R, queue: &ConcurrentQueue, pass: &mut QueuePass, count: u64) -> Option<u64>
    requires { IsOf queue.now pass.old }
    ensures { IsOf queue.now pass.new }
{
    let mut sum: u64 = 0;
    for _ in 0..count {
        let (DequeueReply::Item(number), _) = queue.dequeue(rt, pass) else {
            return None;
        };
        sum = sum.wrapping_add(number);
    }
    Some(sum)
}

/// The sum of the numbers below `count`, which all went through the queue.
fn go_through<R: Wait>(
    rt: &R,
    queue: &ConcurrentQueue,
    pass: &mut QueuePass,
    count: u64,
) -> Option<u64>
    requires { IsOf queue.now pass.old }
{
    let mut sum: u64 = 0;
    for from in (0..count).step_by(DEPTH as usize) {
        let to = from.saturating_add(DEPTH).min(count);
        if !fill(rt, queue, pass, from, to) {
            return None;
        }
        sum = sum.wrapping_add(drain(rt, queue, pass, to.saturating_sub(from))?);
    }
    Some(sum)
}

/// How long one caller takes to enqueue and dequeue so many numbers, of which as many as there is room for
/// stand in the queue at once.
pub fn nanoseconds<R: Wait + Clock>(rt: &R, alloc: Global, count: u64) -> Result<u64, Trouble>
    requires { count ≤ 1000000000 }
{
    let Ok((queue, mut pass)) = ConcurrentQueue::new(alloc, 65_536, 32, 1) else {
        return Err(Trouble::NoMemory);
    };
    let Ok(start) = Instant::now(rt) else {
        return Err(Trouble::NoClock);
    };
    if go_through(rt, &queue, &mut pass, count) != Some(Tally::below(count).sum) {
        return Err(Trouble::WrongNumbers);
    }
    nanoseconds_since(rt, start).ok_or(Trouble::NoClock)
}
