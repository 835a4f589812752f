// Writers that hand numbers to readers by calls that wait.
ghost use Rattle.std.specs.Prelude.{◌≡◌, ◌<◌, ◌≤◌};

use crate::Trouble;
use crate::hand_over::{Outcome, Task, longest, split_off, tasks_of};
use cancel_flag::{CancelToken, cancel_pair};
use channel_wait::{ReadEnd, WriteEnd, read, write};
use channels::{Channel, Mode, Pass, Reader, Writer};
use races::{Countdown, Race, Tally};
use std::alloc::Global;
use std::sync::Wait;
use std::thread::Threads;
use std::time::{Clock, Instant};

/// Writes the numbers, and completes the channel as the last writer.
fn write_all<R: Wait>(
    rt: &R,
    writer: &mut Writer<'_, u64>,
    token: &mut CancelToken,
    writers: &Countdown,
    from: u64,
    to: u64,
) -> Option<u64> {
    for number in from..to {
        let Ok(WriteEnd::Done) = write(rt, writer, number, token) else {
            return None;
        };
    }
    if writers.count_off() && !writer.try_complete(rt, None) {
        return None;
    }
    Some(0)
}

/// Reads until the channel is closed, and sums what it read.
fn read_all<R: Wait>(rt: &R, reader: &mut Reader<'_, u64>, token: &mut CancelToken) -> Option<u64> {
    let mut sum: u64 = 0;
    for _ in rt.forever() {
        match read(rt, reader, token) {
            Ok(ReadEnd::Item(number)) => sum = sum.wrapping_add(number),
            Ok(ReadEnd::Closed(_)) => return Some(sum),
            _ => return None,
        }
    }
    unreachable!()
}

/// What writers and readers share.
#[derive(Drop)]
struct Waiting<'r> {
    alloc: Global,
    channel: &'r Channel<u64>,
    writers: &'r Countdown,
}

impl<'r> Race for Waiting<'r> {
    type Pass = Pass;

    type Task = Task;

    type Outcome = Outcome;

    ghost is_of = { λ race pass. pass.table ≡ race.channel.now };

    fn split(&self, pass: &mut Pass) -> Option<Pass> {
        split_off(self.channel, pass)
    }

    fn run<R: Wait + Clock>(&self, rt: &R, pass: Pass, task: Task) -> Outcome {
        let start = Instant::now(rt).ok();
        let Ok((_source, mut token)) = cancel_pair(self.alloc) else {
            return (start, None);
        };
        let sum = match task {
            Task::Write(from, to) => {
                let mut writer = Writer::new(self.channel, pass);
                write_all(rt, &mut writer, &mut token, self.writers, from, to)
            }
            Task::Read => read_all(rt, &mut Reader::new(self.channel, pass), &mut token),
        };
        (start, sum)
    }
}

/// How long writers take to hand so many numbers to readers, each call with a token that is not set.
pub fn nanoseconds<R: Wait + Threads + Sync + Clock>(
    rt: &R,
    alloc: Global,
    writers: u64,
    readers: u64,
    count: u64,
) -> Result<u64, Trouble>
    requires callers { (0 < writers) × (writers ≤ 32) × (readers ≤ 32) }
    requires count { count ≤ 1000000000 }
{
    let Ok((channel, pass)) = Channel::bounded(alloc, 16, Mode::Wait, 64) else {
        return Err(Trouble::NoMemory);
    };
    let race = Waiting {
        alloc,
        channel: &channel,
        writers: &Countdown::new(writers),
    };
    let tasks = tasks_of(alloc, writers, readers, count)?;
    let outcomes = races::run(rt, alloc, &race, pass, tasks)?;
    longest(rt, outcomes, Tally::below(count))
}
