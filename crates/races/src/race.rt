// Threads that race on what they share, each with a pass of its own.
ghost use Rattle.std.specs.Prelude.{All, IfOk, IfSome};
ghost use Rattle.races.specs.Lanes.{IsReady};

use crate::line::StartLine;
use std::alloc::{AllocFailed, Global};
use std::sync::Wait;
use std::thread;
use std::thread::Threads;
use std::time::Clock;

/// What threads share, and what each does with it. The value is the object with whatever else all of
/// them see.
pub trait Race: Sync {
    /// What a thread makes its calls by.
    type Pass: Send + Drop;

    /// What a thread is to do.
    type Task: Send + Drop;

    /// What a thread ends with.
    type Outcome: Send + Drop;

    /// Whether a pass is of the object.
    ghost is_of: { Self → Self.Pass → Type 0 };

    /// Splits a pass off. None where the pass holds one number alone.
    fn split(&self, pass: &mut Self::Pass) -> Option<Self::Pass>
        requires { is_of self.now pass.old }
        ensures kept { is_of self.now pass.new }
        ensures split { IfSome result (λ other. is_of self.now other) };

    /// What a thread does, once all have come to the start. It takes all the memory that it wants.
    fn run<R: Wait + Clock>(&self, rt: &R, pass: Self::Pass, task: Self::Task) -> Self::Outcome
        requires { is_of self.now pass };
}

/// Why no race was run, or what it came to is not told.
#[derive(Clone, Copy, Debug, PartialEq, Eq)]
pub enum RaceError {
    NoMemory,
    /// The pass holds fewer numbers than there are tasks.
    NoNumber,
    /// A thread met what it must not.
    WentWrong,
}

impl<T: Drop> From<AllocFailed<T>> for RaceError {
    fn from(_: AllocFailed<T>) -> Self {
        RaceError::NoMemory
    }
}

/// The place of one thread: what it starts with, and what it ends with.
#[derive(Drop)]
struct Lane<P, T, O> {
    entry: Option<(P, T)>,
    outcome: Option<O>,
}

/// A lane for each task. The last has the pass that is given, the others have passes split off it.
fn lanes_of<X: Race>(
    alloc: Global,
    race: &X,
    mut pass: X::Pass,
    mut tasks: Vec<X::Task>,
) -> Result<Vec<Lane<X::Pass, X::Task, X::Outcome>>, RaceError>
    requires { X.is_of race.now pass }
    ensures { IfOk result (λ lanes. All (IsReady (X.is_of race.now)) lanes.items) }
{
    let mut lanes = Vec::new(alloc);
    let Some(last) = tasks.pop() else {
        return Ok(lanes);
    };
    for task in tasks {
        let Some(other) = race.split(&mut pass) else {
            return Err(RaceError::NoNumber);
        };
        lanes.push(Lane {
            entry: Some((other, task)),
            outcome: None,
        })?;
    }
    lanes.push(Lane {
        entry: Some((pass, last)),
        outcome: None,
    })?;
    Ok(lanes)
}

/// Runs a thread from the start line to its end.
fn run_lane<X: Race, R: Wait + Clock>(
    rt: &R,
    race: &X,
    line: &StartLine,
    lane: &mut Lane<X::Pass, X::Task, X::Outcome>,
)
    requires { IsReady (X.is_of race.now) lane.old }
{
    line.start(rt);
    if let Some((pass, task)) = lane.entry.take() {
        lane.outcome = Some(race.run(rt, pass, task));
    }
}

/// What the threads ended with.
fn outcomes_of<P: Drop, T: Drop, O: Drop>(
    alloc: Global,
    lanes: Vec<Lane<P, T, O>>,
) -> Result<Vec<O>, RaceError> {
    let mut outcomes = Vec::new(alloc);
    for lane in lanes {
        let Lane { outcome, .. } = lane;
        if let Some(outcome) = outcome {
            outcomes.push(outcome)?;
        }
    }
    Ok(outcomes)
}

/// Runs each task in a thread of its own, once all have come to a start line, and gives what they ended
/// with, in order of the tasks. Between the start and the last end it takes no memory, so that all run,
/// or none.
pub fn run<X: Race, R: Wait + Threads + Sync + Clock>(
    rt: &R,
    alloc: Global,
    race: &X,
    pass: X::Pass,
    tasks: Vec<X::Task>,
) -> Result<Vec<X::Outcome>, RaceError>
    requires { X.is_of race.now pass }
{
    let mut lanes = lanes_of(alloc, race, pass, tasks)?;
    let line = StartLine::new(lanes.len() as u64);
    let each = |_: usize, lane: &mut Lane<X::Pass, X::Task, X::Outcome>|
        requires { IsReady (X.is_of race.now) lane.now }
    { run_lane(rt, race, &line, lane) };
    let threads = lanes.len();
    if threads > 0 {
        thread::for_each_mut(rt, lanes.as_mut_slice(), threads, &each);
    }
    outcomes_of(alloc, lanes)
}

/// The numbers that a thread ends with, and whether it met what it must not.
#[derive(Drop)]
pub struct Found {
    pub numbers: Vec<u64>,
    pub failed: bool,
}

/// All numbers that threads ended with.
pub fn gathered(alloc: Global, all_found: Vec<Found>) -> Result<Vec<u64>, RaceError> {
    let mut all = Vec::new(alloc);
    for found in all_found {
        if found.failed {
            return Err(RaceError::WentWrong);
        }
        let Ok(()) = all.extend_from_slice(found.numbers.as_slice()) else {
            return Err(RaceError::NoMemory);
        };
    }
    Ok(all)
}
