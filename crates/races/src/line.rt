// Where threads wait for each other, and who of them is the last.
use pauses::Pause;
use std::sync::Wait;
use std::sync::atomic::{AtomicBool, AtomicU64, Ordering};
use std::time::{Clock, Instant};

/// How often a thread looks at the line at most, should others never come: some 20 seconds.
const MOST_LOOKS: u32 = 20_000;

/// A start line for so many threads.
#[derive(Drop)]
pub struct StartLine {
    threads: u64,
    came: AtomicU64,
}

impl StartLine {
    pub fn new(threads: u64) -> StartLine {
        StartLine {
            threads,
            came: AtomicU64::new(0),
        }
    }

    /// Returns once all threads have come, or after some 20 seconds. Takes no memory.
    pub fn start<R: Wait>(&self, rt: &R) {
        self.came.fetch_add(1, Ordering::SeqCst);
        let mut pause = Pause::new();
        for _ in 0..MOST_LOOKS {
            if self.came.load(Ordering::SeqCst) >= self.threads {
                return;
            }
            pause.take(rt);
        }
    }

    /// The same, with the time then, if the clock tells it.
    pub fn timed_start<R: Wait + Clock>(&self, rt: &R) -> Option<Instant> {
        self.start(rt);
        Instant::now(rt).ok()
    }
}

/// The nanoseconds since then. None where the clock fails, or after more than 500 years.
pub fn nanoseconds_since<R: Clock>(rt: &R, start: Instant) -> Option<u64> {
    let spent = start.elapsed(rt).ok()?;
    u64::try_from(spent.as_nanos()).ok()
}

/// How many are left of those that are to end, or of what is to be done.
#[derive(Drop)]
pub struct Countdown {
    left: AtomicU64,
    given_up: AtomicBool,
}

impl Countdown {
    pub fn new(left: u64) -> Countdown {
        Countdown {
            left: AtomicU64::new(left),
            given_up: AtomicBool::new(false),
        }
    }

    /// Counts one off, and says whether it was the last. It is for as many calls as it was made with.
    pub fn count_off(&self) -> bool {
        self.left.fetch_sub(1, Ordering::SeqCst) == 1
    }

    /// Says that the rest will not come, so that nobody waits for it.
    pub fn give_up(&self) {
        self.given_up.store(true, Ordering::SeqCst);
    }

    /// Whether none is left, or the rest is given up.
    pub fn is_over(&self) -> bool {
        self.left.load(Ordering::SeqCst) == 0 || self.given_up.load(Ordering::SeqCst)
    }
}
