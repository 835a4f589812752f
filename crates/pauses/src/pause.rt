// Pauses that end by time.
use std::sync::Wait;
use std::sync::atomic::{AtomicU64, Ordering};
use std::time::Duration;

/// How many spins the first pause has. It lasts as long as many turns of a lock, so that meanwhile who has the
/// turn can make call after call with the words and the machine in the cache of its own core.
const FIRST_SPINS: u32 = 256;

/// A pause of at least so many spins is a longest one.
const MOST_SPINS: u32 = 2_048;

/// How many microseconds a thread sleeps after the longest pause.
const MOMENT: u64 = 20;

/// How many sleeps are that short. All last some milliseconds together: for less than that a caller is
/// back soon after there is something for it.
const SHORT_SLEEPS: u32 = 64;

/// How many microseconds a thread sleeps at most.
const LONGEST: u64 = 1_000;

/// Pauses that double up to a longest, then short sleeps, and then sleeps that double up to a longest.
/// It takes no memory.
///
/// A spin is an addition to a word of its own, which takes some 20 cycles on most processors. The processor's
/// own pause takes 10 to 140, so that pauses of as many would last ten times as long on one as on another.
///
/// A thread that sleeps gets its core back soon after. One that yields it to other programs may wait
/// for a whole turn of theirs, which is a thousand times as long.
#[derive(Drop)]
pub struct Pause {
    /// How many spins the next pause has.
    spins: u32,
    /// A longest pause is over.
    spun: bool,
    sleeps: u32,
    /// How many microseconds the next sleep has.
    moment: u64,
    /// What it spins on.
    beats: AtomicU64,
    /// What the thread sleeps on. Nobody else knows it, so nothing but the time ends a sleep.
    word: AtomicU64,
}

impl Pause {
    pub fn new() -> Pause {
        Pause {
            spins: FIRST_SPINS,
            spun: false,
            sleeps: 0,
            moment: MOMENT,
            beats: AtomicU64::new(0),
            word: AtomicU64::new(0),
        }
    }

    /// Begins anew with the first pause.
    pub fn reset(&mut self) {
        self.spins = FIRST_SPINS;
        self.spun = false;
        self.sleeps = 0;
        self.moment = MOMENT;
    }

    /// How many sleeps it has taken, up to the last short one.
    pub fn sleeps(&self) -> u32 {
        self.sleeps
    }

    /// Spins through the next pause, and sleeps in none. True where it was a longest one.
    pub fn spin(&mut self) -> bool {
        for _ in 0..self.spins {
            self.beats.fetch_add(1, Ordering::SeqCst);
        }
        if self.spins >= MOST_SPINS {
            return true;
        }
        self.spins *= 2;
        false
    }

    /// Takes the next pause: spins, and once a longest one is over sleeps.
    pub fn take<R: Wait>(&mut self, rt: &R) {
        if self.spun {
            self.sleep(rt);
        } else {
            self.spun = self.spin();
        }
    }

    fn sleep<R: Wait>(&mut self, rt: &R) {
        self.word
            .park_timeout(rt, 0, Duration::from_micros(self.moment));
        if self.sleeps < SHORT_SLEEPS {
            self.sleeps += 1;
        } else if self.moment < LONGEST {
            self.moment *= 2;
        }
    }
}
