// Threads whose calls on a queue try once and for all, and tell why a try gave no answer.
ghost use Rattle.std.specs.Prelude.{◌<◌, ◌≤◌};
ghost use Rattle.concurrent_queue.specs.Queues.{IsOf};

use crate::splits::split_queue;
use concurrent_queue::{
    ConcurrentQueue, DequeueReply, EnqueueReply, QueueAgain, QueueOnce, QueuePass,
};
use races::{Countdown, Race, Tally, share};
use std::alloc::Global;
use std::sync::Wait;
use std::test::Fail;
use std::thread::Threads;
use std::time::Clock;

/// So many items there is room for. With segments of 2 slots at first a hand-over of a few items opens another.
const ROOM: u32 = 8;

/// The queue, and how many numbers have not been dequeued.
#[derive(Drop)]
struct Trying {
    queue: ConcurrentQueue,
    left: Countdown,
}

#[derive(Drop)]
enum Task {
    /// Enqueues each number from the first up to, and without, the second.
    Enqueue(u64, u64),
    /// Dequeues until no number is left.
    Dequeue,
    /// Peeks until no number is left.
    Peek,
    /// Counts until no number is left.
    Count,
}

/// How many tries gave no answer, by what they met.
#[derive(Clone, Copy, Default, Debug)]
struct Met {
    lost: u64,
    turn: u64,
    in_flight: u64,
    no_place: u64,
}

impl Met {
    fn add(&mut self, again: QueueAgain) {
        let count = match again {
            QueueAgain::Lost => &mut self.lost,
            QueueAgain::Turn => &mut self.turn,
            QueueAgain::InFlight => &mut self.in_flight,
            QueueAgain::NoPlace => &mut self.no_place,
        };
        *count = count.wrapping_add(1);
    }

    fn and(self, other: Met) -> Met {
        Met {
            lost: self.lost.wrapping_add(other.lost),
            turn: self.turn.wrapping_add(other.turn),
            in_flight: self.in_flight.wrapping_add(other.in_flight),
            no_place: self.no_place.wrapping_add(other.no_place),
        }
    }
}

/// What a thread dequeued and what its tries met, or none where a call answered what it must not.
type Outcome = Option<(Tally, Met)>;

fn enqueue_once(
    queue: &ConcurrentQueue,
    pass: &mut QueuePass,
    number: u64,
) -> QueueOnce<EnqueueReply>
    requires { IsOf queue.now pass.old }
    ensures { IsOf queue.now pass.new }
{
    queue.enqueue_once(pass, number)
}

fn dequeue_once(queue: &ConcurrentQueue, pass: &mut QueuePass) -> QueueOnce<DequeueReply>
    requires { IsOf queue.now pass.old }
    ensures { IsOf queue.now pass.new }
{
    queue.dequeue_once(pass)
}

fn peek_once(queue: &ConcurrentQueue, pass: &mut QueuePass) -> QueueOnce<DequeueReply>
    requires { IsOf queue.now pass.old }
    ensures { IsOf queue.now pass.new }
{
    queue.peek_once(pass)
}

fn count_once(queue: &ConcurrentQueue, pass: &mut QueuePass) -> QueueOnce<u64>
    requires { IsOf queue.now pass.old }
    ensures { IsOf queue.now pass.new }
{
    queue.count_once(pass)
}

/// Tries until the number is enqueued. False where the caller has no call left.
fn enqueue_one<R: Wait>(
    rt: &R,
    queue: &ConcurrentQueue,
    pass: &mut QueuePass,
    number: u64,
    met: &mut Met,
) -> bool
    requires { IsOf queue.now pass.old }
    ensures { IsOf queue.now pass.new }
{
    for _ in rt.forever() {
        match enqueue_once(queue, pass, number) {
            QueueOnce::Answer(EnqueueReply::Done, _) => return true,
            QueueOnce::Answer(EnqueueReply::Full, _) => {}
            QueueOnce::Again(again) => met.add(again),
            QueueOnce::Spent => return false,
        }
    }
    unreachable!()
}

fn enqueue_all<R: Wait>(
    rt: &R,
    queue: &ConcurrentQueue,
    mut pass: QueuePass,
    from: u64,
    to: u64,
) -> Outcome
    requires { IsOf queue.now pass }
{
    let mut met = Met::default();
    for number in from..to {
        if !enqueue_one(rt, queue, &mut pass, number, &mut met) {
            return None;
        }
    }
    Some((Tally::default(), met))
}

fn dequeue_all<R: Wait>(
    rt: &R,
    queue: &ConcurrentQueue,
    mut pass: QueuePass,
    left: &Countdown,
) -> Outcome
    requires { IsOf queue.now pass }
{
    let mut tally = Tally::default();
    let mut met = Met::default();
    for _ in rt.forever() {
        if left.is_over() {
            return Some((tally, met));
        }
        match dequeue_once(queue, &mut pass) {
            QueueOnce::Answer(DequeueReply::Item(number), _) => {
                left.count_off();
                tally = tally.with(number);
            }
            QueueOnce::Answer(DequeueReply::Empty, _) => {}
            QueueOnce::Again(again) => met.add(again),
            QueueOnce::Spent => return None,
        }
    }
    unreachable!()
}

fn peek_all<R: Wait>(
    rt: &R,
    queue: &ConcurrentQueue,
    mut pass: QueuePass,
    left: &Countdown,
) -> Outcome
    requires { IsOf queue.now pass }
{
    let mut met = Met::default();
    for _ in rt.forever() {
        if left.is_over() {
            return Some((Tally::default(), met));
        }
        match peek_once(queue, &mut pass) {
            QueueOnce::Answer(_, _) => {}
            QueueOnce::Again(again) => met.add(again),
            QueueOnce::Spent => return None,
        }
    }
    unreachable!()
}

/// There are never more items than there is room for.
fn count_all<R: Wait>(
    rt: &R,
    queue: &ConcurrentQueue,
    mut pass: QueuePass,
    left: &Countdown,
) -> Outcome
    requires { IsOf queue.now pass }
{
    let mut met = Met::default();
    for _ in rt.forever() {
        if left.is_over() {
            return Some((Tally::default(), met));
        }
        match count_once(queue, &mut pass) {
            QueueOnce::Answer(count, _) if count <= ROOM as u64 => {}
            QueueOnce::Again(again) => met.add(again),
            _ => return None,
        }
    }
    unreachable!()
}

impl Race for Trying {
    type Pass = QueuePass;

    type Task = Task;

    type Outcome = Outcome;

    ghost is_of = { λ race pass. IsOf race.queue pass };

    fn split(&self, pass: &mut QueuePass) -> Option<QueuePass> {
        split_queue(&self.queue, pass)
    }

    fn run<R: Wait + Clock>(&self, rt: &R, pass: QueuePass, task: Task) -> Outcome {
        match task {
            Task::Enqueue(from, to) => enqueue_all(rt, &self.queue, pass, from, to),
            Task::Dequeue => dequeue_all(rt, &self.queue, pass, &self.left),
            Task::Peek => peek_all(rt, &self.queue, pass, &self.left),
            Task::Count => count_all(rt, &self.queue, pass, &self.left),
        }
    }
}

/// All together.
fn of_all(outcomes: &[Outcome]) -> Outcome {
    let mut tally = Tally::default();
    let mut met = Met::default();
    for outcome in outcomes {
        let (dequeued, causes) = (*outcome)?;
        tally = tally.and(dequeued);
        met = met.and(causes);
    }
    Some((tally, met))
}

/// Runs so many enqueuers and dequeuers, and `others` more tasks, on a new queue, until the numbers below
/// `count` are dequeued.
fn run<R: Wait + Threads + Sync + Clock>(
    rt: &R,
    alloc: Global,
    count: u64,
    enqueuers: u64,
    dequeuers: u64,
    others: Vec<Task>,
) -> Result<Outcome, Fail>
    requires enqueuers { (0 < enqueuers) × (enqueuers ≤ 31) }
    requires count { count ≤ 20000 }
{
    let mut tasks = others;
    for i in 0..enqueuers {
        let (from, to) = share(count, enqueuers, i);
        tasks.push(Task::Enqueue(from, to))?;
    }
    for _ in 0..dequeuers {
        tasks.push(Task::Dequeue)?;
    }
    let Ok((queue, pass)) = ConcurrentQueue::new(alloc, ROOM, 2, 16) else {
        return Err(Fail::new("no queue"));
    };
    let left = Countdown::new(count);
    let outcomes = races::run(rt, alloc, &Trying { queue, left }, pass, tasks)?;
    Ok(of_all(outcomes.as_slice()))
}

#[test]
fn sixteen_callers_hand_over_each_number_once(rt: HostRuntime) -> Result<(), Fail> {
    let alloc = rt.alloc();
    let others = vec![in alloc; Task::Count, Task::Count, Task::Peek, Task::Peek]?;
    let Some((tally, _)) = run(&rt, alloc, 20_000, 6, 6, others)? else {
        return Err(Fail::new("a call answered what it must not"));
    };
    assert_eq!(rt; tally, Tally::below(20_000));
    Ok(())
}

/// One after the other, until each cause was met: that of a caller which was first, of one that has the
/// turn, and of one that has enqueued an item and not put it into its slot.
#[test]
fn tries_meet_others(rt: HostRuntime) -> Result<(), Fail> {
    let alloc = rt.alloc();
    let mut all = Met::default();
    for _ in 0..200 {
        let others = vec![in alloc; Task::Count, Task::Peek]?;
        let Some((tally, met)) = run(&rt, alloc, 2_000, 4, 4, others)? else {
            return Err(Fail::new("a call answered what it must not"));
        };
        assert_eq!(rt; tally, Tally::below(2_000));
        all = all.and(met);
        if all.lost > 0 && all.turn > 0 && all.in_flight > 0 {
            return Ok(());
        }
    }
    Err(Fail::new("no try met each of the three"))
}
