// Threads that share a machine.
ghost use Rattle.std.specs.Prelude.{◌≡◌, All, IfOk};

use super::{EmptyQueue, Gate, await_one, is_at, split_all};
use crate::gaining::queue_up;
use crate::serving::serve;
use crate::{Attempt, Pass, Shared};
use atomic_table::Badge;
use std::alloc::Global;
use std::sync::Wait;
use std::sync::atomic::{AtomicU64, Ordering};
use std::test::Fail;
use std::thread::Threads;
use std::{mem, thread};

#[derive(Clone, Copy, PartialEq, Eq)]
enum Task {
    /// Makes one call, in which the gate is shut.
    Call,
    /// Tries a call while another is at the gate, and opens the gate.
    TryAtGate,
    /// So often makes a call by a ticket that is drawn at once.
    QueueUp(u64),
}

#[derive(Drop)]
struct Job {
    pass: Pass,
    task: Task,
}

/// Makes a call by a ticket that it draws at once. Whether an answer came.
fn call_by_ticket<'g, R: Wait>(rt: &R, shared: &Shared<EmptyQueue<'g>>, pass: &mut Pass) -> bool
    requires { pass.old.table ≡ shared.now }
    ensures { pass.new.table ≡ shared.now }
{
    let board = &shared.table.shared;
    let caller = pass.numbers.caller();
    if pass.numbers.is_spent(1 << 48) {
        return false;
    }
    let mut seat = mem::replace(&mut pass.badge, Badge::blank()).into_seat();
    let turn = queue_up(rt, board, &mut seat);
    let served = serve(board, &mut seat, turn, caller, ());
    pass.badge = seat.into_badge();
    pass.numbers.count_call();
    served.is_ok()
}

/// Makes as many calls by tickets. Whether all were answered.
fn queue_up_often<'g, R: Wait>(
    rt: &R,
    shared: &Shared<EmptyQueue<'g>>,
    mut pass: Pass,
    times: u64,
) -> bool
    requires { pass.table ≡ shared.now }
{
    for _ in 0..times {
        if !call_by_ticket(rt, shared, &mut pass) {
            return false;
        }
    }
    true
}

/// Whether the task came out as it is to.
fn work<'g, R: Wait>(rt: &R, shared: &Shared<EmptyQueue<'g>>, gate: &Gate, job: Job) -> bool
    requires { job.pass.table ≡ shared.now }
{
    let Job { mut pass, task } = job;
    match task {
        Task::Call => shared.call(rt, &mut pass, ()).is_ok(),
        Task::TryAtGate => {
            await_one(&gate.reached);
            let attempt = shared.try_call(&mut pass, ());
            gate.open.store(1, Ordering::SeqCst);
            matches!(attempt, Attempt::Busy(()))
        }
        Task::QueueUp(times) => queue_up_often(rt, shared, pass, times),
    }
}

/// A thread for each task, each with a pass of its own. Whether all came out as they are to.
fn run<'g, R: Wait + Threads + Sync>(
    rt: &R,
    shared: &Shared<EmptyQueue<'g>>,
    gate: &Gate,
    jobs: Vec<Job>,
) -> Result<bool, Fail>
    requires { All (λ job. job.pass.table ≡ shared.now) jobs.items }
{
    let each = |job: Job| -> bool
        requires { job.pass.table ≡ shared.now }
    { work(rt, shared, gate, job) };
    let outcomes = thread::map_vec(rt, jobs, &each)?;
    Ok(outcomes.as_slice().iter().all(|&well| well))
}

/// A job for each task, each with a pass split off.
fn jobs_of<'g>(
    alloc: Global,
    shared: &Shared<EmptyQueue<'g>>,
    pass: &mut Pass,
    tasks: &[Task],
) -> Result<Vec<Job>, Fail>
    requires { pass.old.table ≡ shared.now }
    ensures table { pass.new.table ≡ shared.now }
    ensures jobs { IfOk result (λ jobs. All (λ job. job.pass.table ≡ shared.now) jobs.items) }
{
    let mut jobs = Vec::new(alloc);
    for task in tasks {
        if !pass.has_spare() {
            return Ok(jobs);
        }
        let pass = shared.split(pass);
        jobs.push(Job { pass, task: *task })?;
    }
    Ok(jobs)
}

#[test]
fn a_try_meets_a_call_that_has_the_turn(rt: HostRuntime) -> Result<(), Fail> {
    let gate = Gate::shut();
    let machine = EmptyQueue {
        counts: 0,
        gate: &gate,
    };
    let Ok((shared, mut pass)) = Shared::new(rt.alloc(), machine, 3) else {
        return Err(Fail::new("no memory"));
    };
    let tasks = [Task::Call, Task::TryAtGate];
    let jobs = jobs_of(rt.alloc(), &shared, &mut pass, &tasks)?;
    assert_eq!(rt; jobs.len(), 2);
    assert!(rt; run(&rt, &shared, &gate, jobs)?);
    // the try made no entry
    assert!(rt; matches!(shared.try_call(&mut pass, ()), Attempt::Answer(0, at) if is_at(at, 1)));
    Ok(())
}

#[test]
fn calls_wait_for_the_tickets_that_they_draw(rt: HostRuntime) -> Result<(), Fail> {
    let gate = Gate::open();
    let machine = EmptyQueue {
        counts: 0,
        gate: &gate,
    };
    let Ok((shared, mut pass)) = Shared::new(rt.alloc(), machine, 64) else {
        return Err(Fail::new("no memory"));
    };
    let jobs = jobs_of(rt.alloc(), &shared, &mut pass, &[Task::QueueUp(200); 16])?;
    assert_eq!(rt; jobs.len(), 16);
    assert!(rt; run(&rt, &shared, &gate, jobs)?);
    assert!(rt;
        matches!(shared.try_call(&mut pass, ()), Attempt::Answer(0, at) if is_at(at, 3_200))
    );
    Ok(())
}
