// Writers that hand numbers to readers.
ghost use Rattle.std.specs.Prelude.{◌≡◌, ◌<◌, ◌≤◌, IfSome};

use crate::Trouble;
use channels::{Channel, Mode, NoMemory, Pass, ReadReply, Reader, WriteReply, Writer};
use pauses::Pause;
use races::{Countdown, Race, Tally, nanoseconds_since, share};
use std::alloc::Global;
use std::sync::Wait;
use std::thread::Threads;
use std::time::{Clock, Instant};

/// What one thread does.
#[derive(Drop)]
pub enum Task {
    /// Writes each number from the first up to, and without, the second.
    Write(u64, u64),
    /// Reads to the end.
    Read,
}

/// When a thread started, and the sum of what it read. None where it met what it must not.
pub type Outcome = (Option<Instant>, Option<u64>);

fn write_one<R: Wait + Clock>(rt: &R, writer: &mut Writer<'_, u64>, number: u64) -> bool {
    let mut pause = Pause::new();
    for _ in rt.forever() {
        match writer.try_write(rt, number) {
            Ok(WriteReply::Done) => return true,
            Ok(WriteReply::Full(_)) => pause.take(rt),
            _ => return false,
        }
    }
    unreachable!()
}

/// Writes the numbers, and completes the channel as the last writer.
fn write_all<R: Wait + Clock>(
    rt: &R,
    writer: &mut Writer<'_, u64>,
    writers: &Countdown,
    from: u64,
    to: u64,
) -> Option<u64> {
    for number in from..to {
        if !write_one(rt, writer, number) {
            return None;
        }
    }
    if writers.count_off() && !writer.try_complete(rt, None) {
        return None;
    }
    Some(0)
}

/// Reads until the channel is closed, and sums what it read.
fn read_all<R: Wait + Clock>(rt: &R, reader: &mut Reader<'_, u64>) -> Option<u64> {
    let mut sum: u64 = 0;
    let mut pause = Pause::new();
    for _ in rt.forever() {
        match reader.try_read(rt) {
            ReadReply::Item(number) => {
                sum = sum.wrapping_add(number);
                pause.reset();
            }
            ReadReply::Empty => pause.take(rt),
            ReadReply::Closed(_) => return Some(sum),
        }
    }
    unreachable!()
}

/// What writers and readers share.
#[derive(Drop)]
struct HandOver<'r> {
    channel: &'r Channel<u64>,
    writers: &'r Countdown,
}

impl<'r> Race for HandOver<'r> {
    type Pass = Pass;

    type Task = Task;

    type Outcome = Outcome;

    ghost is_of = { λ race pass. pass.table ≡ race.channel.now };

    fn split(&self, pass: &mut Pass) -> Option<Pass> {
        split_off(self.channel, pass)
    }

    fn run<R: Wait + Clock>(&self, rt: &R, pass: Pass, task: Task) -> Outcome {
        let start = Instant::now(rt).ok();
        let sum = match task {
            Task::Write(from, to) => {
                let mut writer = Writer::new(self.channel, pass);
                write_all(rt, &mut writer, self.writers, from, to)
            }
            Task::Read => read_all(rt, &mut Reader::new(self.channel, pass)),
        };
        (start, sum)
    }
}

/// Splits a pass off, if a number is left.
pub fn split_off(channel: &Channel<u64>, pass: &mut Pass) -> Option<Pass>
    requires { pass.old.table ≡ channel.now }
    ensures kept { pass.new.table ≡ channel.now }
    ensures split { IfSome result (λ other. other.table ≡ channel.now) }
{
    if pass.has_spare() {
        Some(channel.split(pass))
    } else {
        None
    }
}

/// So many writers, each with its part of the numbers, and so many readers.
pub fn tasks_of(
    alloc: Global,
    writers: u64,
    readers: u64,
    count: u64,
) -> Result<Vec<Task>, NoMemory>
    requires callers { (0 < writers) × (writers ≤ 32) }
    requires count { count ≤ 1000000000 }
{
    let mut tasks = Vec::new(alloc);
    for i in 0..writers {
        let (from, to) = share(count, writers, i);
        tasks.push(Task::Write(from, to))?;
    }
    for _ in 0..readers {
        tasks.push(Task::Read)?;
    }
    Ok(tasks)
}

/// The longest time since a start, where numbers of that sum were read.
pub fn longest<R: Clock>(rt: &R, outcomes: Vec<Outcome>, wanted: Tally) -> Result<u64, Trouble> {
    let mut nanoseconds: u64 = 0;
    let mut total: u64 = 0;
    for (start, sum) in outcomes.as_slice() {
        let since = start.and_then(|start| nanoseconds_since(rt, start));
        nanoseconds = nanoseconds.max(since.ok_or(Trouble::NoClock)?);
        total = total.wrapping_add(sum.ok_or(Trouble::WrongNumbers)?);
    }
    if total == wanted.sum {
        Ok(nanoseconds)
    } else {
        Err(Trouble::WrongNumbers)
    }
}

/// How long writers take to hand so many numbers to readers, from the start line to the last join.
pub fn nanoseconds<R: Wait + Threads + Sync + Clock>(
    rt: &R,
    alloc: Global,
    writers: u64,
    readers: u64,
    count: u64,
) -> Result<u64, Trouble>
    requires callers { (0 < writers) × (writers ≤ 32) × (readers ≤ 32) }
    requires count { count ≤ 1000000000 }
{
    let Ok((channel, pass)) = Channel::bounded(alloc, 1024, Mode::Wait, 64) else {
        return Err(Trouble::NoMemory);
    };
    let race = HandOver {
        channel: &channel,
        writers: &Countdown::new(writers),
    };
    let tasks = tasks_of(alloc, writers, readers, count)?;
    let outcomes = races::run(rt, alloc, &race, pass, tasks)?;
    longest(rt, outcomes, Tally::below(count))
}
