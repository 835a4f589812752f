// How long an item is on its way to a reader that has waited long.
ghost use Rattle.std.specs.Prelude.{◌≡◌, ◌≤◌};

use crate::Trouble;
use crate::hand_over::{Task, split_off, tasks_of};
use cancel_flag::{CancelToken, cancel_pair};
use channel_wait::{ReadEnd, WriteEnd, read, write};
use channels::{Channel, Mode, Pass, Reader, Writer};
use races::{Race, nanoseconds_since};
use std::alloc::Global;
use std::sync::Wait;
use std::thread;
use std::thread::Threads;
use std::time::{Clock, Duration, Instant};

/// How many milliseconds the writer sleeps before each write.
const GAP: u64 = 2;

/// The times that the items of one thread took.
type Lags = Option<Vec<u64>>;

/// Writes the time, again and again.
fn write_times<R: Wait + Clock>(
    rt: &R,
    writer: &mut Writer<'_, u64>,
    token: &mut CancelToken,
    start: Instant,
    count: u64,
) -> bool {
    for _ in 0..count {
        thread::sleep(rt, Duration::from_millis(GAP));
        let Some(now) = nanoseconds_since(rt, start) else {
            return false;
        };
        let Ok(WriteEnd::Done) = write(rt, writer, now, token) else {
            return false;
        };
    }
    thread::sleep(rt, Duration::from_millis(GAP));
    writer.try_complete(rt, None)
}

/// Reads times, and says how long each was on its way.
fn read_times<R: Wait + Clock>(
    rt: &R,
    alloc: Global,
    reader: &mut Reader<'_, u64>,
    token: &mut CancelToken,
    start: Instant,
) -> Lags {
    let mut lags = Vec::new(alloc);
    for _ in rt.forever() {
        match read(rt, reader, token) {
            Ok(ReadEnd::Item(then)) => {
                let now = nanoseconds_since(rt, start)?;
                lags.push(now.saturating_sub(then)).ok()?;
            }
            Ok(ReadEnd::Closed(_)) => return Some(lags),
            _ => return None,
        }
    }
    unreachable!()
}

/// What the writer and the readers share, with the time that all times are told from.
#[derive(Drop)]
struct Lagging<'r> {
    alloc: Global,
    channel: &'r Channel<u64>,
    start: Instant,
}

impl<'r> Race for Lagging<'r> {
    type Pass = Pass;

    type Task = Task;

    type Outcome = Lags;

    ghost is_of = { λ race pass. pass.table ≡ race.channel.now };

    fn split(&self, pass: &mut Pass) -> Option<Pass> {
        split_off(self.channel, pass)
    }

    fn run<R: Wait + Clock>(&self, rt: &R, pass: Pass, task: Task) -> Lags {
        let (_source, mut token) = cancel_pair(self.alloc).ok()?;
        match task {
            Task::Write(_, count) => {
                let mut writer = Writer::new(self.channel, pass);
                if write_times(rt, &mut writer, &mut token, self.start, count) {
                    Some(Vec::new(self.alloc))
                } else {
                    None
                }
            }
            Task::Read => {
                let mut reader = Reader::new(self.channel, pass);
                read_times(rt, self.alloc, &mut reader, &mut token, self.start)
            }
        }
    }
}

/// All times of all threads.
fn together(alloc: Global, outcomes: Vec<Lags>) -> Result<Vec<u64>, Trouble> {
    let mut all = Vec::new(alloc);
    for lags in outcomes {
        for lag in lags.ok_or(Trouble::WrongNumbers)? {
            all.push(lag)?;
        }
    }
    Ok(all)
}

/// So many percent of the items came to one of the readers within this time.
pub fn nanoseconds<R: Wait + Threads + Sync + Clock>(
    rt: &R,
    alloc: Global,
    readers: u64,
    count: u64,
    percent: u64,
) -> Result<u64, Trouble>
    requires readers { readers ≤ 32 }
    requires count { count ≤ 1000000000 }
    requires percent { percent ≤ 100 }
{
    let Ok((channel, pass)) = Channel::bounded(alloc, 16, Mode::Wait, 64) else {
        return Err(Trouble::NoMemory);
    };
    let Ok(start) = Instant::now(rt) else {
        return Err(Trouble::NoClock);
    };
    let race = Lagging {
        alloc,
        channel: &channel,
        start,
    };
    let tasks = tasks_of(alloc, 1, readers, count)?;
    let outcomes = races::run(rt, alloc, &race, pass, tasks)?;
    let mut all = together(alloc, outcomes)?;
    all.sort_unstable();
    let place = count * percent / 100;
    match all.get(place as usize) {
        Some(lag) => Ok(*lag),
        None => Err(Trouble::WrongNumbers),
    }
}
