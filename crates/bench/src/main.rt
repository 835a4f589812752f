//! Measures the structures, as `bench WORKLOAD P C N`: P writers, C readers, N operations.
//!
//! The last line that it prints is the nanoseconds that one operation took. `docs/SPEED.md` has the
//! numbers beside those of other libraries. The crate stands on the structures that it measures and
//! promises nothing upward. Without words it prints its usage.
#![tactic(auto)]

ghost use Rattle.std.specs.Prelude.{◌<◌, ◌≤◌, IfSome};

mod bag;
mod blocking;
mod deep;
mod hand_over;
mod idle;
mod lag;
mod pairs;
mod queue;
mod solo;
mod steal;
mod waits;

use channels::NoMemory;
use races::RaceError;
use std::alloc::{AllocFailed, Global};
use std::io::Print;
use std::process::ExitCode;
use std::sync::Wait;
use std::thread::Threads;
use std::time::Clock;
use std::{env, io};
use thiserror::Error;

/// Why a run did not come to its end.
#[derive(Clone, Copy, Debug, Error)]
pub enum Trouble {
    #[error("no memory")]
    NoMemory,
    #[error("no time from the clock")]
    NoClock,
    #[error("no number left for a caller")]
    NoNumber,
    #[error("other numbers came than were sent")]
    WrongNumbers,
}

impl From<NoMemory> for Trouble {
    fn from(_: NoMemory) -> Self {
        Trouble::NoMemory
    }
}

impl From<RaceError> for Trouble {
    fn from(error: RaceError) -> Self {
        match error {
            RaceError::NoMemory => Trouble::NoMemory,
            RaceError::NoNumber => Trouble::NoNumber,
            RaceError::WentWrong => Trouble::WrongNumbers,
        }
    }
}

impl<T: Drop> From<AllocFailed<T>> for Trouble {
    fn from(_: AllocFailed<T>) -> Self {
        Trouble::NoMemory
    }
}

/// The most writers, and the most readers. Together they have all 64 numbers.
const MOST_CALLERS: u64 = 32;

/// The most operations of a run.
const MOST_OPERATIONS: u64 = 1_000_000_000;

/// The status where the words are not those of the usage, and where a run did not come to its end.
const USAGE_STATUS: u8 = 2;

const FAILED_STATUS: u8 = 1;

fn print_usage(rt: &impl Print) -> io::Result<()> {
    println!(rt; "usage: bench WORKLOAD P C N")?;
    println!(rt; "chan: P writers hand N numbers to C readers through a channel of capacity 1024")?;
    println!(rt; "wait: the same by calls that wait, through a channel of capacity 16")?;
    println!(rt; "block: the same through a blocking collection with bound 1024")?;
    println!(rt; "solo: one caller writes and reads N numbers, one after another")?;
    println!(rt; "pairs: P threads enqueue a number and dequeue one, N times in all")?;
    println!(rt; "pairs2, pairs1024: the same with another length of the first segment than 32")?;
    println!(rt; "counted: the same as pairs while one more thread counts all the time")?;
    println!(rt; "queue: P threads enqueue N numbers for C that dequeue, with room for 1024")?;
    println!(rt;
        "deep: one caller fills a queue with 60000 numbers and drains it, N numbers in all"
    )?;
    println!(rt; "bag: P threads add four items to a bag and take four, N items in all")?;
    println!(rt; "steal: one adder puts N items into a bag, and C takers steal them")?;
    println!(rt; "lag50, lag90, lag99: one writer writes an item every 2 ms to C idle readers")?;
    println!(rt; "idle: C readers wait on an empty channel for N nanoseconds")?;
    println!(rt;
        "P and C are 1 to 32, N is 1 to 1000000000; C is 0 for pairs, counted, deep and bag, P is 1 for steal, deep, lag and idle"
    )?;
    Ok(())
}

/// A number of the command line, if it is in range.
fn number_within(word: &str, least: u64, most: u64) -> Option<u64>
    ensures { IfSome result (λ number. (least ≤ number) × (number ≤ most)) }
{
    match word.parse::<u64>() {
        Ok(number) if least <= number && number <= most => Some(number),
        _ => None,
    }
}

/// The nanoseconds of one operation, of so many that took so long.
fn per_operation(nanoseconds: Result<u64, Trouble>, count: u64) -> Result<u64, Trouble>
    requires { 0 < count }
{
    match nanoseconds {
        Ok(nanoseconds) => Ok(nanoseconds / count),
        Err(trouble) => Err(trouble),
    }
}

/// The nanoseconds that one operation of the workload took. None where the words are unknown.
fn measured<R: Wait + Threads + Sync + Clock>(
    rt: &R,
    alloc: Global,
    words: &[String],
) -> Option<Result<u64, Trouble>> {
    let [_, workload, writers, readers, count] = words else {
        return None;
    };
    let writers = number_within(writers, 1, MOST_CALLERS)?;
    let readers = number_within(readers, 0, MOST_CALLERS)?;
    let count = number_within(count, 1, MOST_OPERATIONS)?;
    let nanoseconds = match (workload.as_str(), readers) {
        ("pairs", 0) => pairs::nanoseconds(rt, alloc, 32, writers, 0, count),
        ("pairs2", 0) => pairs::nanoseconds(rt, alloc, 2, writers, 0, count),
        ("pairs1024", 0) => pairs::nanoseconds(rt, alloc, 1024, writers, 0, count),
        ("counted", 0) => pairs::nanoseconds(rt, alloc, 32, writers, 1, count),
        ("deep", 0) if writers == 1 => deep::nanoseconds(rt, alloc, count),
        ("bag", 0) => bag::nanoseconds(rt, alloc, writers, count),
        (_, 0) => return None,
        ("chan", _) => hand_over::nanoseconds(rt, alloc, writers, readers, count),
        ("wait", _) => waits::nanoseconds(rt, alloc, writers, readers, count),
        ("block", _) => blocking::nanoseconds(rt, alloc, writers, readers, count),
        ("queue", _) => queue::nanoseconds(rt, alloc, writers, readers, count),
        ("lag50", _) => return Some(lag::nanoseconds(rt, alloc, readers, count, 50)),
        ("lag90", _) => return Some(lag::nanoseconds(rt, alloc, readers, count, 90)),
        ("lag99", _) => return Some(lag::nanoseconds(rt, alloc, readers, count, 99)),
        ("idle", _) => idle::wait(rt, alloc, readers, count),
        ("solo", _) => solo::nanoseconds(rt, alloc, count),
        ("steal", _) if writers == 1 => steal::nanoseconds(rt, alloc, readers, count),
        _ => return None,
    };
    Some(per_operation(nanoseconds, count))
}

fn main(rt: HostRuntime) -> io::Result<ExitCode> {
    let mut words = Vec::new(rt.alloc());
    for word in env::args(&rt)? {
        words.push(word)?;
    }
    if words.len() <= 1 {
        print_usage(&rt)?;
        return Ok(ExitCode::SUCCESS);
    }
    match measured(&rt, rt.alloc(), &words) {
        Some(Ok(nanoseconds)) => {
            println!(rt; "{nanoseconds}")?;
            Ok(ExitCode::SUCCESS)
        }
        Some(Err(trouble)) => {
            println!(rt; "{trouble}")?;
            Ok(ExitCode::from(FAILED_STATUS))
        }
        None => {
            print_usage(&rt)?;
            Ok(ExitCode::from(USAGE_STATUS))
        }
    }
}
