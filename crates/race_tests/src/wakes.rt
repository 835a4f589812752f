// Callers that have slept for some time, and what wakes them. A sleep would end by itself too, so the
// time until they are awake is held against what was left of it.
ghost use Rattle.std.specs.Prelude.{◌≡◌, ◌<◌, ◌≤◌, IfOk, IfSome};

use crate::lags::{LIMIT, Lags, MOST_SERIES, nap_of};
use crate::splits::{split_channel, split_collection};
use blocking_collection::{AddReply, BlockingCollection, Member, Store, TakeReply};
use cancel_flag::{CancelSource, CancelToken, cancel_pair};
use channel_wait::{ReadEnd, read};
use channels::{Channel, Mode, Pass, Reader, WriteReply, Writer};
use races::{Race, nanoseconds_since};
use std::alloc::Global;
use std::sync::Wait;
use std::test::Fail;
use std::thread;
use std::thread::Threads;
use std::time::{Clock, Duration, Instant};

/// What wakes the sleepers.
#[derive(Clone, Copy, PartialEq, Eq)]
enum Event {
    /// An item comes.
    Item,
    /// No item will come any more.
    Complete,
    /// The token of all is set, and all are woken.
    Cancel,
}

/// The number that comes as an item.
const NUMBER: u64 = 7;

/// What callers sleep beside that wait for an item.
trait Bedside: Sync + Drop {
    type Pass: Send + Drop;

    /// Whether a pass is of the object.
    ghost is_of: { Self → Self.Pass → Type 0 };

    /// One with room for an item, and its first pass, which holds 64 numbers.
    fn empty(alloc: Global) -> Result<(Self, Self::Pass), Fail>
        ensures { IfOk result (λ made. is_of made.0 made.1) };

    /// Splits a pass off. None where the pass holds one number alone.
    fn split(&self, pass: &mut Self::Pass) -> Option<Self::Pass>
        requires { is_of self.now pass.old }
        ensures kept { is_of self.now pass.new }
        ensures split { IfSome result (λ other. is_of self.now other) };

    /// Waits for an item, and says what ended the wait, if it was an event as it is to be.
    fn wait<R: Wait>(&self, rt: &R, pass: Self::Pass, token: &mut CancelToken) -> Option<Event>
        requires { is_of self.now pass };

    /// Makes the event, and says whether it could.
    fn make<R: Wait>(&self, rt: &R, pass: Self::Pass, event: Event, source: CancelSource) -> bool
        requires { is_of self.now pass };
}

impl Bedside for Channel<u64> {
    type Pass = Pass;

    ghost is_of = { λ channel pass. pass.table ≡ channel };

    fn empty(alloc: Global) -> Result<(Channel<u64>, Pass), Fail> {
        let (channel, pass) = Channel::bounded(alloc, 1, Mode::Wait, 64)?;
        Ok((channel, pass))
    }

    fn split(&self, pass: &mut Pass) -> Option<Pass> {
        split_channel(self, pass)
    }

    fn wait<R: Wait>(&self, rt: &R, pass: Pass, token: &mut CancelToken) -> Option<Event> {
        match read(rt, &mut Reader::new(self, pass), token) {
            Ok(ReadEnd::Item(NUMBER)) => Some(Event::Item),
            Ok(ReadEnd::Closed(None)) => Some(Event::Complete),
            Ok(ReadEnd::Cancelled) => Some(Event::Cancel),
            _ => None,
        }
    }

    fn make<R: Wait>(&self, rt: &R, pass: Pass, event: Event, mut source: CancelSource) -> bool {
        let mut writer = Writer::new(self, pass);
        match event {
            Event::Item => matches!(writer.try_write(rt, NUMBER), Ok(WriteReply::Done)),
            Event::Complete => writer.try_complete(rt, None),
            Event::Cancel => {
                source.cancel(rt);
                self.wake_all();
                true
            }
        }
    }
}

impl Bedside for BlockingCollection<u64> {
    type Pass = Pass;

    ghost is_of = { λ collection pass. pass.table ≡ collection };

    fn empty(alloc: Global) -> Result<(BlockingCollection<u64>, Pass), Fail> {
        let (collection, pass) = BlockingCollection::new(alloc, Store::Fifo, Some(1), 64)?;
        Ok((collection, pass))
    }

    fn split(&self, pass: &mut Pass) -> Option<Pass> {
        split_collection(self, pass)
    }

    fn wait<R: Wait>(&self, rt: &R, pass: Pass, token: &mut CancelToken) -> Option<Event> {
        match Member::new(self, pass).take(rt, token) {
            TakeReply::Item(NUMBER) => Some(Event::Item),
            TakeReply::Ended => Some(Event::Complete),
            TakeReply::Cancelled => Some(Event::Cancel),
            _ => None,
        }
    }

    fn make<R: Wait>(&self, rt: &R, pass: Pass, event: Event, mut source: CancelSource) -> bool {
        let mut member = Member::new(self, pass);
        match event {
            Event::Item => matches!(member.try_add(rt, NUMBER), Ok(AddReply::Done)),
            Event::Complete => {
                member.complete_adding(rt);
                true
            }
            Event::Cancel => {
                source.cancel(rt);
                self.wake_all();
                true
            }
        }
    }
}

#[derive(Drop)]
enum Task {
    /// Waits for an item.
    Wait(CancelToken),
    /// Makes the event, once the others sleep.
    Wake(CancelSource),
}

/// What all threads of a round share.
#[derive(Drop)]
struct Round<B> {
    bedside: B,
    event: Event,
    start: Instant,
    /// How many milliseconds pass before the event.
    nap: u64,
}

impl<B: Bedside> Race for Round<B> {
    type Pass = B::Pass;

    type Task = Task;

    /// When the thread made the event, or had its answer. None where it met what it must not.
    type Outcome = Option<u64>;

    ghost is_of = { λ round pass. B.is_of round.bedside pass };

    fn split(&self, pass: &mut B::Pass) -> Option<B::Pass> {
        self.bedside.split(pass)
    }

    fn run<R: Wait + Clock>(&self, rt: &R, pass: B::Pass, task: Task) -> Option<u64> {
        match task {
            Task::Wait(mut token) => {
                let end = self.bedside.wait(rt, pass, &mut token);
                let now = nanoseconds_since(rt, self.start);
                if end == Some(self.event) { now } else { None }
            }
            Task::Wake(source) => {
                thread::sleep(rt, Duration::from_millis(self.nap));
                let now = nanoseconds_since(rt, self.start);
                if self.bedside.make(rt, pass, self.event, source) {
                    now
                } else {
                    None
                }
            }
        }
    }
}

/// The one that wakes, and so many sleepers.
fn tasks_of<R: Wait>(rt: &R, alloc: Global, sleepers: u64) -> Result<Vec<Task>, Fail> {
    let (source, mut first) = cancel_pair(alloc)?;
    let mut tasks = Vec::new(alloc);
    tasks.push(Task::Wake(source))?;
    for _ in 0..sleepers {
        tasks.push(Task::Wait(first.another(rt)?))?;
    }
    Ok(tasks)
}

/// One round: notes how long after the event each sleeper had its answer.
fn run_round<B: Bedside, R: Wait + Threads + Sync + Clock>(
    rt: &R,
    alloc: Global,
    event: Event,
    sleepers: u64,
    nap: u64,
    lags: &mut Lags,
) -> Result<(), Fail> {
    let (bedside, pass) = B::empty(alloc)?;
    let tasks = tasks_of(rt, alloc, sleepers)?;
    let round = Round {
        bedside,
        event,
        start: Instant::now(rt)?,
        nap,
    };
    let times = races::run(rt, alloc, &round, pass, tasks)?;
    lags.note(times.as_slice())
}

/// The least median of several series of so many rounds each.
fn median<B: Bedside, R: Wait + Threads + Sync + Clock>(
    rt: &R,
    alloc: Global,
    event: Event,
    sleepers: u64,
    rounds: u32,
) -> Result<u64, Fail> {
    let mut least = u64::MAX;
    for _ in 0..MOST_SERIES {
        least = least.min(series::<B, R>(rt, alloc, event, sleepers, rounds)?);
        if least < LIMIT {
            return Ok(least);
        }
    }
    Ok(least)
}

fn series<B: Bedside, R: Wait + Threads + Sync + Clock>(
    rt: &R,
    alloc: Global,
    event: Event,
    sleepers: u64,
    rounds: u32,
) -> Result<u64, Fail> {
    let mut lags = Lags::new(alloc);
    for round in 0..rounds {
        run_round::<B, R>(rt, alloc, event, sleepers, nap_of(round), &mut lags)?;
    }
    lags.median()
}

#[test]
fn an_item_wakes_its_reader(rt: HostRuntime) -> Result<(), Fail> {
    assert!(rt; median::<Channel<u64>, HostRuntime>(&rt, rt.alloc(), Event::Item, 1, 48)? < LIMIT);
    Ok(())
}

#[test]
fn a_completion_wakes_all_readers(rt: HostRuntime) -> Result<(), Fail> {
    assert!(rt;
        median::<Channel<u64>, HostRuntime>(&rt, rt.alloc(), Event::Complete, 3, 16)? < LIMIT
    );
    series::<Channel<u64>, HostRuntime>(&rt, rt.alloc(), Event::Complete, 31, 4)?;
    Ok(())
}

#[test]
fn who_cancels_wakes_all_readers(rt: HostRuntime) -> Result<(), Fail> {
    assert!(rt;
        median::<Channel<u64>, HostRuntime>(&rt, rt.alloc(), Event::Cancel, 1, 24)? < LIMIT
    );
    assert!(rt;
        median::<Channel<u64>, HostRuntime>(&rt, rt.alloc(), Event::Cancel, 3, 16)? < LIMIT
    );
    series::<Channel<u64>, HostRuntime>(&rt, rt.alloc(), Event::Cancel, 31, 4)?;
    Ok(())
}

#[test]
fn an_item_wakes_its_taker(rt: HostRuntime) -> Result<(), Fail> {
    assert!(rt;
        median::<BlockingCollection<u64>, HostRuntime>(&rt, rt.alloc(), Event::Item, 1, 48)? < LIMIT
    );
    Ok(())
}

#[test]
fn a_completion_wakes_all_takers(rt: HostRuntime) -> Result<(), Fail> {
    assert!(rt;
        median::<BlockingCollection<u64>, HostRuntime>(&rt, rt.alloc(), Event::Complete, 3, 16)?
            < LIMIT
    );
    series::<BlockingCollection<u64>, HostRuntime>(&rt, rt.alloc(), Event::Complete, 31, 4)?;
    Ok(())
}

#[test]
fn who_cancels_wakes_all_takers(rt: HostRuntime) -> Result<(), Fail> {
    assert!(rt;
        median::<BlockingCollection<u64>, HostRuntime>(&rt, rt.alloc(), Event::Cancel, 1, 24)?
            < LIMIT
    );
    assert!(rt;
        median::<BlockingCollection<u64>, HostRuntime>(&rt, rt.alloc(), Event::Cancel, 3, 16)?
            < LIMIT
    );
    series::<BlockingCollection<u64>, HostRuntime>(&rt, rt.alloc(), Event::Cancel, 31, 4)?;
    Ok(())
}
