// Readers that wait for nothing.
ghost use Rattle.std.specs.Prelude.{◌≡◌, ◌≤◌};

use crate::Trouble;
use crate::hand_over::{Task, split_off, tasks_of};
use cancel_flag::cancel_pair;
use channel_wait::{ReadEnd, read};
use channels::{Channel, Mode, Pass, Reader, Writer};
use races::Race;
use std::alloc::Global;
use std::sync::Wait;
use std::thread;
use std::thread::Threads;
use std::time::{Clock, Duration};

/// The channel on which nothing comes.
#[derive(Drop)]
struct Idle<'r> {
    alloc: Global,
    channel: &'r Channel<u64>,
}

impl<'r> Race for Idle<'r> {
    type Pass = Pass;

    type Task = Task;

    type Outcome = bool;

    ghost is_of = { λ race pass. pass.table ≡ race.channel.now };

    fn split(&self, pass: &mut Pass) -> Option<Pass> {
        split_off(self.channel, pass)
    }

    fn run<R: Wait + Clock>(&self, rt: &R, pass: Pass, task: Task) -> bool {
        let Ok((_source, mut token)) = cancel_pair(self.alloc) else {
            return false;
        };
        match task {
            Task::Write(_, count) => {
                thread::sleep(rt, Duration::from_nanos(count));
                Writer::new(self.channel, pass).try_complete(rt, None)
            }
            Task::Read => matches!(
                read(rt, &mut Reader::new(self.channel, pass), &mut token),
                Ok(ReadEnd::Closed(_))
            ),
        }
    }
}

/// Lets so many readers wait for so many nanoseconds, until the channel is completed.
pub fn wait<R: Wait + Threads + Sync + Clock>(
    rt: &R,
    alloc: Global,
    readers: u64,
    count: u64,
) -> Result<u64, Trouble>
    requires readers { readers ≤ 32 }
    requires count { count ≤ 1000000000 }
{
    let Ok((channel, pass)) = Channel::bounded(alloc, 16, Mode::Wait, 64) else {
        return Err(Trouble::NoMemory);
    };
    let race = Idle {
        alloc,
        channel: &channel,
    };
    let tasks = tasks_of(alloc, 1, readers, count)?;
    let ends = races::run(rt, alloc, &race, pass, tasks)?;
    if ends.as_slice().iter().all(|end| *end) {
        Ok(count)
    } else {
        Err(Trouble::WrongNumbers)
    }
}
