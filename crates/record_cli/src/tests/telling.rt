// The line of progress, with a clock and a standard error of the test's own.
use crate::progress::{Progress, Work, taken_first, taken_last};
use ho_io::Gate;
use std::fmt::Display;
use std::io;
use std::sync::atomic::{AtomicU64, Ordering};
use std::time::{Clock, Duration};

/// A clock that is set by hand, and a standard error that counts what it is told.
#[derive(Drop)]
struct Console {
    second: AtomicU64,
    told: AtomicU64,
}

impl Clock for Console {
    fn monotonic(&self) -> io::Result<Duration> {
        Ok(Duration::from_secs(self.second.load(Ordering::SeqCst)))
    }

    fn since_1970(&self) -> io::Result<Duration> {
        self.monotonic()
    }
}

impl Eprint for Console {
    fn eprint<D: Display + Drop>(&self, _value: D) -> io::Result<()> {
        self.told.fetch_add(1, Ordering::SeqCst);
        Ok(())
    }

    fn eprintln<D: Display + Drop>(&self, value: D) -> io::Result<()> {
        self.eprint(value)
    }
}

#[test]
fn a_line_is_told_once_a_second_and_taken_away_once(rt: HostRuntime) {
    let console = Console {
        second: AtomicU64::new(7),
        told: AtomicU64::new(0),
    };
    let Ok(progress) = Progress::begin(&console, Work::Records { workers: 2 }) else {
        return;
    };
    for (second, told) in [(7, 0), (8, 1), (8, 1), (11, 2), (11, 2)] {
        console.second.store(second, Ordering::SeqCst);
        progress.at(&rt, 3, 0);
        assert_eq!(rt;
            console.told.load(Ordering::SeqCst),
            told,
            "at second {second}"
        );
    }
    for told in [3, 3] {
        progress.wipe();
        assert_eq!(rt; console.told.load(Ordering::SeqCst), told);
    }
}

// With 100 records fed and half of them filtered by the first of three stages, the first makes 100 reads and
// 50 writes, the second 50 of each, and the last 50 reads.
#[test]
fn calls_tell_what_was_taken(rt: HostRuntime) {
    assert_eq!(rt; taken_first(&[150, 100, 50, 0]), 100);
    assert_eq!(rt; taken_last(&[150, 100, 50, 0]), 50);
    assert_eq!(rt; taken_first(&[30]), 30);
    assert_eq!(rt; taken_last(&[0, 0]), 0);
}
