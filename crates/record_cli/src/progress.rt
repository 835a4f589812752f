// A line of progress on standard error, while threads are at work.
use crate::commands::{Command, command_of};
use crate::run::run;
use crate::status::Status;
use ho_base::{NoMemory, Word};
use ho_io::{Gate, OpenGate, Put, Shelf, Sink};
use std::alloc::Global;
use std::io;
use std::sync::Wait;
use std::sync::atomic::{AtomicU64, Ordering};
use std::thread::Threads;
use std::time::{Clock, Instant};

/// The most stages of a pipeline.
const STAGES: usize = 8;

/// Whose calls pass the gate.
#[derive(Clone, Copy)]
pub(crate) enum Work {
    /// Workers on records, so many for each stage.
    Records { workers: u32 },
    /// The callers of a script.
    Calls,
}

/// A gate that stops nobody. It counts the calls that pass it, and tells on standard error how far the work
/// is: once a second, and first after a second.
#[derive(Drop)]
pub(crate) struct Progress<'r, R: Eprint + Clock> {
    rt: &'r R,
    work: Work,
    begun: Instant,
    /// How many calls the workers of each stage have made.
    calls: [AtomicU64; STAGES],
    /// For which second a line stands there, or 0 where none does.
    second: AtomicU64,
}

/// A sink that takes the line of progress away before it asks for room, so before the first byte is put.
#[derive(Drop)]
struct AfterProgress<'p, 'r, K: Sink + Drop, R: Eprint + Clock> {
    out: K,
    progress: &'p Progress<'r, R>,
}

// Whose calls the words ask for.
fn work_of(words: &[Word]) -> Work {
    match command_of(words) {
        Some(Command::Run { workers, .. } | Command::Made { workers, .. }) => {
            Work::Records { workers }
        }
        _ => Work::Calls,
    }
}

/// About how many records the first stage has taken, from the calls of each stage. A call is a read or a
/// write, and what a stage writes the next one reads, if it does not stand between them.
pub(crate) fn taken_first(calls: &[u64]) -> u64 {
    let mut taken: u64 = 0;
    for made in calls.iter().rev() {
        taken = made.saturating_sub(taken);
    }
    taken
}

/// How many records the last stage has taken, whose calls are reads.
pub(crate) fn taken_last(calls: &[u64]) -> u64 {
    calls
        .iter()
        .rev()
        .copied()
        .find(|made| *made > 0)
        .unwrap_or(0)
}

impl<'r, R: Eprint + Clock> Progress<'r, R> {
    /// Begins to count, unless the clock fails.
    pub(crate) fn begin(rt: &'r R, work: Work) -> io::Result<Progress<'r, R>> {
        let none = || AtomicU64::new(0);
        Ok(Progress {
            rt,
            work,
            begun: Instant::now(rt)?,
            calls: [
                none(),
                none(),
                none(),
                none(),
                none(),
                none(),
                none(),
                none(),
            ],
            second: none(),
        })
    }

    // The stage of a worker, counted from 0.
    fn stage_of(&self, worker: u32) -> usize {
        match self.work {
            Work::Records { workers } => (worker / workers.max(1)) as usize,
            Work::Calls => 0,
        }
    }

    // Whether this is the first call in a further second.
    fn is_due(&self) -> bool {
        let Ok(spent) = self.begun.elapsed(self.rt) else {
            return false;
        };
        let now = spent.as_secs();
        let last = self.second.load(Ordering::SeqCst);
        now > last
            && self
                .second
                .compare_exchange(last, now, Ordering::SeqCst, Ordering::SeqCst)
                .is_ok()
    }

    // Writes the line over the one that stands there.
    fn tell(&self) -> io::Result<()> {
        let mut calls = [0; STAGES];
        for (made, word) in calls.iter_mut().zip(&self.calls) {
            *made = word.load(Ordering::SeqCst);
        }
        let first = taken_first(&calls);
        let last = taken_last(&calls);
        match self.work {
            Work::Records { .. } => {
                eprint!(self.rt; "\rabout {first} records fed, {last} at the last stage\x1b[K")
            }
            Work::Calls => eprint!(self.rt; "\r{last} calls\x1b[K"),
        }
    }

    /// Takes the line away, if one stands there.
    pub(crate) fn wipe(&self) {
        if self.second.swap(0, Ordering::SeqCst) > 0 {
            // What can't be wiped was not shown.
            let _ = eprint!(self.rt; "\r\x1b[K");
        }
    }
}

impl<R: Eprint + Clock + Sync> Gate for Progress<'_, R> {
    fn at<W: Wait>(&self, _rt: &W, worker: u32, _turn: u64) {
        if let Some(made) = self.calls.get(self.stage_of(worker)) {
            made.fetch_add(1, Ordering::SeqCst);
        }
        if self.is_due() {
            // The work goes on where nothing can be told of it.
            let _ = self.tell();
        }
    }
}

impl<K: Sink + Drop, R: Eprint + Clock> Sink for AfterProgress<'_, '_, K, R> {
    ghost taken = { λ s. K.taken s.out };

    ghost spare = { λ s. K.spare s.out };

    ghost puts = { λ s. K.puts s.out };

    ghost reserves = { λ s. K.reserves s.out };

    ghost asked = { λ s. K.asked s.out };

    ghost faults = { λ s. K.faults s.out };

    fn reserve(&mut self, more: usize) -> Result<(), NoMemory> {
        self.progress.wipe();
        self.out.reserve(more)
    }

    fn put(&mut self, piece: &[u8]) -> Put {
        self.out.put(piece)
    }
}

/// Runs a command that waits for other threads, with a line of progress on standard error while they are at
/// work. The line is gone before the first byte of the text is put. Where the clock fails there is none.
pub(crate) fn run_telling<S: Shelf, K: Sink + Drop, R: Eprint + Clock + Wait + Threads + Sync>(
    rt: &R,
    alloc: Global,
    words: &[Word],
    shelf: &mut S,
    mut out: K,
) -> Status {
    let Ok(progress) = Progress::begin(rt, work_of(words)) else {
        return run(rt, alloc, words, shelf, &mut out, &OpenGate).status;
    };
    let mut out = AfterProgress {
        out,
        progress: &progress,
    };
    let status = run(rt, alloc, words, shelf, &mut out, &progress).status;
    progress.wipe();
    status
}
