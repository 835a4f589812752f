// Threads that read, write and give up over one place. A start line stands before their calls, so that
// these overlap.
ghost use Rattle.std.specs.Prelude.{◌≡◌, ◌<◌, ◌≤◌};

use crate::splits::split_channel;
use cancel_flag::{CancelSource, CancelToken, cancel_pair};
use channel_wait::{Begun, ReadEnd, ReadWait, WriteEnd, WriteWait, read, write};
use channels::{Channel, Mode, Pass, Reader, Writer};
use crossbeam_utils::Backoff;
use races::{Countdown, Found, Race, are_numbers_below, gathered, nanoseconds_since, share};
use std::alloc::Global;
use std::sync::Wait;
use std::test::Fail;
use std::thread::Threads;
use std::time::{Clock, Instant};

/// How long many hand-overs take at most, should other programs have the cores most of the time.
const MOST_NANOSECONDS: u64 = 10_000_000_000;

/// How long the token stays unset, in snoozes.
const SNOOZES: u32 = 300;

/// The channel, the writers that have not ended, and the memory for what is read or comes back.
#[derive(Drop)]
struct Waiting {
    channel: Channel<u64>,
    writers: Countdown,
    alloc: Global,
}

#[derive(Drop)]
enum Task {
    /// Writes each number from the first up to, and without, the second.
    Write(u64, u64),
    /// Reads to the end of the channel.
    Read,
    /// Sets the token of all others after a while.
    Cancel(CancelSource),
}

/// How a thread makes its calls.
#[derive(Clone, Copy, PartialEq, Eq)]
enum Pace {
    /// All wait.
    Patient,
    /// Each other one is given up at once where it has to wait.
    Hasty,
}

/// What a thread does, and how, with the token of its calls.
#[derive(Drop)]
struct Job {
    token: CancelToken,
    pace: Pace,
    task: Task,
}

/// A write that is given up at once where it has to wait. None for want of memory.
fn hasty_write<R: Wait>(
    rt: &R,
    writer: &mut Writer<'_, u64>,
    number: u64,
) -> Option<WriteEnd<u64>> {
    let Ok(begun) = WriteWait::begin(rt, writer, number) else {
        return None;
    };
    match begun {
        Begun::Ended(end) => Some(end),
        Begun::Waiting(wait) => Some(wait.cancel(rt)),
    }
}

/// A read that is given up at once where it has to wait. None for want of memory.
fn hasty_read<R: Wait>(rt: &R, reader: &mut Reader<'_, u64>) -> Option<ReadEnd<u64>> {
    let Ok(begun) = ReadWait::begin(rt, reader) else {
        return None;
    };
    match begun {
        Begun::Ended(end) => Some(end),
        Begun::Waiting(wait) => Some(wait.cancel(rt)),
    }
}

/// Writes numbers, and gathers those that came back. Answers whether it failed.
fn write_all<R: Wait>(
    rt: &R,
    writer: &mut Writer<'_, u64>,
    token: &mut CancelToken,
    from: u64,
    to: u64,
    pace: Pace,
    back: &mut Vec<u64>,
) -> bool {
    for number in from..to {
        let end = if pace == Pace::Hasty && number % 2 == 0 {
            hasty_write(rt, writer, number)
        } else {
            write(rt, writer, number, token).ok()
        };
        match end {
            Some(WriteEnd::Done) => {}
            Some(WriteEnd::Cancelled(own)) => {
                if own != number || back.push(own).is_err() {
                    return true;
                }
            }
            _ => return true,
        }
    }
    false
}

/// Reads until the channel is closed. Answers whether it failed.
fn read_all<R: Wait>(
    rt: &R,
    reader: &mut Reader<'_, u64>,
    token: &mut CancelToken,
    pace: Pace,
    read_so_far: &mut Vec<u64>,
) -> bool {
    let backoff = Backoff::new();
    let mut hasty = false;
    for _ in rt.forever() {
        hasty = pace == Pace::Hasty && !hasty;
        let end = if hasty {
            hasty_read(rt, reader)
        } else {
            read(rt, reader, token).ok()
        };
        match end {
            Some(ReadEnd::Item(number)) => {
                if read_so_far.push(number).is_err() {
                    return true;
                }
            }
            Some(ReadEnd::Cancelled) => backoff.snooze(),
            Some(ReadEnd::Closed(fault)) => return fault.is_some(),
            None => return true,
        }
    }
    unreachable!()
}

/// Sets the token after a while.
fn cancel_later<R: Wait>(rt: &R, mut source: CancelSource) {
    let backoff = Backoff::new();
    for _ in 0..SNOOZES {
        backoff.snooze();
    }
    source.cancel(rt);
}

/// Writes a thread's numbers. The last writer to end completes the channel.
fn write_as_one_of<R: Wait>(
    rt: &R,
    writer: &mut Writer<'_, u64>,
    token: &mut CancelToken,
    writers: &Countdown,
    from: u64,
    to: u64,
    pace: Pace,
    back: &mut Vec<u64>,
) -> bool {
    let failed = write_all(rt, writer, token, from, to, pace, back);
    if writers.count_off() && !writer.try_complete(rt, None) {
        return true;
    }
    failed
}

impl Race for Waiting {
    type Pass = Pass;

    type Task = Job;

    /// The numbers are those that it read or that came back to it.
    type Outcome = Found;

    ghost is_of = { λ race pass. pass.table ≡ race.channel };

    fn split(&self, pass: &mut Pass) -> Option<Pass> {
        split_channel(&self.channel, pass)
    }

    fn run<R: Wait + Clock>(&self, rt: &R, pass: Pass, job: Job) -> Found {
        let Job {
            mut token,
            pace,
            task,
        } = job;
        let mut numbers = Vec::new(self.alloc);
        let failed = match task {
            Task::Write(from, to) => {
                let mut writer = Writer::new(&self.channel, pass);
                write_as_one_of(
                    rt,
                    &mut writer,
                    &mut token,
                    &self.writers,
                    from,
                    to,
                    pace,
                    &mut numbers,
                )
            }
            Task::Read => {
                let mut reader = Reader::new(&self.channel, pass);
                read_all(rt, &mut reader, &mut token, pace, &mut numbers)
            }
            Task::Cancel(source) => {
                cancel_later(rt, source);
                false
            }
        };
        Found { numbers, failed }
    }
}

/// A job for each task, each with a token of its own, of the first and the second in turn.
fn jobs_of<R: Wait>(
    rt: &R,
    alloc: Global,
    tokens: &mut [CancelToken; 2],
    pace: Pace,
    tasks: Vec<Task>,
) -> Result<Vec<Job>, Fail> {
    let mut jobs = Vec::new(alloc);
    for task in tasks {
        let token = tokens[jobs.len() / 2 % 2].another(rt)?;
        jobs.push(Job { token, pace, task })?;
    }
    Ok(jobs)
}

/// So many writers and readers of a share each, and one who sets their token.
fn tasks_of(alloc: Global, pairs: u64, count: u64, source: CancelSource) -> Result<Vec<Task>, Fail>
    requires { (0 < pairs) × (pairs ≤ 31) × (count ≤ 1000000) }
{
    let mut tasks = Vec::new(alloc);
    for i in 0..pairs {
        let (from, to) = share(count, pairs, i);
        tasks.push(Task::Write(from, to))?;
        tasks.push(Task::Read)?;
    }
    tasks.push(Task::Cancel(source))?;
    Ok(tasks)
}

/// So many writers and readers, and one who sets their token, race over one place. Whether each number
/// was read once, or came back to its writer. Patient are all, and half of them have a token that stays
/// unset.
fn race<R: Wait + Threads + Sync + Clock>(
    rt: &R,
    alloc: Global,
    pairs: u64,
    count: u64,
    pace: Pace,
) -> Result<bool, Fail>
    requires { (0 < pairs) × (pairs ≤ 31) × (count ≤ 1000000) }
{
    let (channel, pass) = Channel::bounded(alloc, 1, Mode::Wait, 64)?;
    let (source, mut token) = cancel_pair(alloc)?;
    let (_unset, spared) = cancel_pair(alloc)?;
    let second = match pace {
        Pace::Patient => spared,
        Pace::Hasty => token.another(rt)?,
    };
    let mut tokens = [token, second];
    let tasks = tasks_of(alloc, pairs, count, source)?;
    let jobs = jobs_of(rt, alloc, &mut tokens, pace, tasks)?;
    let race = Waiting {
        channel,
        writers: Countdown::new(pairs),
        alloc,
    };
    let all_found = races::run(rt, alloc, &race, pass, jobs)?;
    Ok(are_numbers_below(gathered(alloc, all_found)?, count))
}

#[test]
fn each_number_is_read_once_or_comes_back(rt: HostRuntime) -> Result<(), Fail> {
    assert!(rt; race(&rt, rt.alloc(), 1, 2_000, Pace::Hasty)?);
    assert!(rt; race(&rt, rt.alloc(), 4, 4_000, Pace::Hasty)?);
    assert!(rt; race(&rt, rt.alloc(), 7, 7_000, Pace::Hasty)?);
    Ok(())
}

#[test]
fn many_that_wait_hand_over_in_time(rt: HostRuntime) -> Result<(), Fail> {
    let start = Instant::now(&rt)?;
    assert!(rt; race(&rt, rt.alloc(), 31, 620, Pace::Patient)?);
    assert!(rt; nanoseconds_since(&rt, start).is_some_and(|spent| spent < MOST_NANOSECONDS));
    Ok(())
}
