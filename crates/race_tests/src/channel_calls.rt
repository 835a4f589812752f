// Threads that share a channel. A start line stands before their calls, so that these overlap.
ghost use Rattle.std.specs.Prelude.{◌≡◌, ◌<◌, ◌≤◌};

use crate::splits::split_channel;
use channels::{
    Channel, ChannelCall, ChannelReply, Mode, Pass, ReadReply, Reader, WriteReply, Writer,
};
use crossbeam_utils::Backoff;
use races::{Countdown, Found, Race, are_numbers_below, gathered, share};
use std::alloc::Global;
use std::sync::Wait;
use std::test::Fail;
use std::thread::Threads;
use std::time::Clock;

/// The channel, the writers that have not ended, and the memory for what is read.
#[derive(Drop)]
struct Channelling {
    channel: Channel<u64>,
    writers: Countdown,
    alloc: Global,
}

#[derive(Drop)]
enum Task {
    /// Writes each number from the first up to, and without, the second.
    Write(u64, u64),
    /// Reads to the end of the channel.
    Read,
    /// So often writes a number and then reads one.
    Both(u64),
}

/// Writes a number once there is room. False where the channel takes no number.
fn write_one<R: Wait>(rt: &R, writer: &mut Writer<'_, u64>, number: u64) -> bool {
    let backoff = Backoff::new();
    for _ in rt.forever() {
        match writer.try_write(rt, number) {
            Ok(WriteReply::Done) => return true,
            Ok(WriteReply::Full(_)) => backoff.snooze(),
            _ => return false,
        }
    }
    unreachable!()
}

/// Writes numbers. Answers whether it failed.
fn write_all<R: Wait>(rt: &R, writer: &mut Writer<'_, u64>, from: u64, to: u64) -> bool {
    for number in from..to {
        if !write_one(rt, writer, number) {
            return true;
        }
    }
    false
}

/// Writes a thread's numbers. The last writer to end completes the channel, also where a write failed.
fn write_as_one_of<R: Wait>(
    rt: &R,
    writer: &mut Writer<'_, u64>,
    writers: &Countdown,
    from: u64,
    to: u64,
) -> bool {
    let failed = write_all(rt, writer, from, to);
    if writers.count_off() && !writer.try_complete(rt, None) {
        return true;
    }
    failed
}

/// Reads until the channel is closed. Answers whether it failed.
fn read_all<R: Wait>(rt: &R, reader: &mut Reader<'_, u64>, read: &mut Vec<u64>) -> bool {
    let backoff = Backoff::new();
    for _ in rt.forever() {
        match reader.try_read(rt) {
            ReadReply::Item(number) => {
                if read.push(number).is_err() {
                    return true;
                }
                backoff.reset();
            }
            ReadReply::Empty => backoff.snooze(),
            ReadReply::Closed(fault) => return fault.is_some(),
        }
    }
    unreachable!()
}

/// Whether who has written a number finds one.
fn finds_one<R: Wait>(rt: &R, channel: &Channel<u64>, pass: &mut Pass, number: u64) -> bool
    requires { pass.old.table ≡ channel.now }
    ensures { pass.new.table ≡ channel.now }
{
    let written = channel.call(rt, pass, ChannelCall::Write(number));
    let read = channel.call(rt, pass, ChannelCall::Read);
    matches!(written, Ok((ChannelReply::Done, _))) && matches!(read, Ok((ChannelReply::Item(_), _)))
}

/// Writes a number and reads one, so often. Answers whether it failed.
fn write_and_read<R: Wait>(rt: &R, channel: &Channel<u64>, mut pass: Pass, times: u64) -> bool
    requires { pass.table ≡ channel.now }
{
    for number in 0..times {
        if !finds_one(rt, channel, &mut pass, number) {
            return true;
        }
    }
    false
}

impl Race for Channelling {
    type Pass = Pass;

    type Task = Task;

    type Outcome = Found;

    ghost is_of = { λ race pass. pass.table ≡ race.channel };

    fn split(&self, pass: &mut Pass) -> Option<Pass> {
        split_channel(&self.channel, pass)
    }

    fn run<R: Wait + Clock>(&self, rt: &R, pass: Pass, task: Task) -> Found {
        let channel = &self.channel;
        let mut numbers = Vec::new(self.alloc);
        let failed = match task {
            Task::Write(from, to) => {
                let mut writer = Writer::new(channel, pass);
                write_as_one_of(rt, &mut writer, &self.writers, from, to)
            }
            Task::Read => read_all(rt, &mut Reader::new(channel, pass), &mut numbers),
            Task::Both(times) => write_and_read(rt, channel, pass, times),
        };
        Found { numbers, failed }
    }
}

/// Runs the tasks on a new channel, each in a thread, and gathers what was read.
fn run<R: Wait + Threads + Sync + Clock>(
    rt: &R,
    alloc: Global,
    capacity: u32,
    tasks: Vec<Task>,
    writers: u64,
) -> Result<Vec<u64>, Fail> {
    let (channel, pass) = Channel::bounded(alloc, capacity, Mode::Wait, 64)?;
    let race = Channelling {
        channel,
        writers: Countdown::new(writers),
        alloc,
    };
    let all_found = races::run(rt, alloc, &race, pass, tasks)?;
    Ok(gathered(alloc, all_found)?)
}

/// Whether so many writers and readers hand over the numbers below `count`, each once.
fn hands_over<R: Wait + Threads + Sync + Clock>(
    rt: &R,
    alloc: Global,
    writers: u64,
    readers: u64,
    count: u64,
) -> Result<bool, Fail>
    requires { (0 < writers) × (writers ≤ 32) × (count ≤ 1000000) }
{
    let mut tasks = Vec::new(alloc);
    for i in 0..writers {
        let (from, to) = share(count, writers, i);
        tasks.push(Task::Write(from, to))?;
    }
    for _ in 0..readers {
        tasks.push(Task::Read)?;
    }
    let read = run(rt, alloc, 1_024, tasks, writers)?;
    Ok(are_numbers_below(read, count))
}

#[test]
fn each_number_is_handed_over_once(rt: HostRuntime) -> Result<(), Fail> {
    assert!(rt; hands_over(&rt, rt.alloc(), 1, 1, 100_000)?);
    assert!(rt; hands_over(&rt, rt.alloc(), 4, 4, 100_000)?);
    assert!(rt; hands_over(&rt, rt.alloc(), 8, 8, 100_000)?);
    Ok(())
}

#[test]
fn who_has_written_finds_an_item(rt: HostRuntime) -> Result<(), Fail> {
    let mut tasks = Vec::new(rt.alloc());
    for _ in 0..16 {
        tasks.push(Task::Both(2_000))?;
    }
    assert!(rt; run(&rt, rt.alloc(), 16, tasks, 0)?.is_empty());
    Ok(())
}
