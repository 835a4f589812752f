ghost use Rattle.std.specs.Prelude.{⊤};

use super::*;
use std::sync::Wait;
use std::sync::atomic::{AtomicU64, Ordering};
use std::test::Fail;
use std::thread;
use std::time::{Clock, Duration};

#[test]
fn shares_go_on_from_each_other(rt: HostRuntime) -> Result<(), Fail> {
    let shares = [share(10, 3, 0), share(10, 3, 1), share(10, 3, 2)];
    assert!(rt; shares == [(0, 3), (3, 6), (6, 10)]);
    assert!(rt; share(0, 1, 0) == (0, 0));
    Ok(())
}

#[test]
fn numbers_are_tallied(rt: HostRuntime) -> Result<(), Fail> {
    let tally = Tally::default()
        .with(3)
        .with(1)
        .and(Tally::default().with(0).with(2));
    assert_eq!(rt; tally, Tally::below(4));
    assert_eq!(rt; Tally::below(0), Tally::default());
    let tallies = [Some(Tally::below(3)), Some(Tally::default().with(3))];
    assert_eq!(rt; Tally::of_all(tallies.as_slice()), Some(Tally::below(4)));
    assert_eq!(rt; Tally::of_all([Some(tally), None].as_slice()), None);
    assert!(rt; are_numbers_below(vec![in rt.alloc(); 2, 0, 1]?, 3));
    assert!(rt; !are_numbers_below(vec![in rt.alloc(); 2, 0, 2]?, 3));
    assert!(rt; !are_numbers_below(vec![in rt.alloc(); 1, 0]?, 3));
    Ok(())
}

#[test]
fn the_last_is_told(rt: HostRuntime) -> Result<(), Fail> {
    let countdown = Countdown::new(2);
    assert!(rt; !countdown.count_off());
    assert!(rt; !countdown.is_over());
    assert!(rt; countdown.count_off());
    assert!(rt; countdown.is_over());
    let countdown = Countdown::new(2);
    countdown.give_up();
    assert!(rt; countdown.is_over());
    Ok(())
}

#[test]
fn nobody_starts_before_all_have_come(rt: HostRuntime) -> Result<(), Fail> {
    let line = StartLine::new(2);
    let came = AtomicU64::new(0);
    let (start, ()) = thread::join(
        &rt,
        || {
            let start = line.timed_start(&rt);
            (start, came.load(Ordering::SeqCst))
        },
        || {
            thread::sleep(&rt, Duration::from_millis(20));
            came.store(1, Ordering::SeqCst);
            line.start(&rt);
        },
    );
    let (Some(start), 1) = start else {
        return Err(Fail::new("one started alone"));
    };
    assert!(rt; nanoseconds_since(&rt, start).is_some());
    Ok(())
}

/// Threads that wait for each other once they run, each with a part of the number that a pass is.
#[derive(Drop)]
struct Meeting {
    came: AtomicU64,
    wanted: u64,
}

impl Race for Meeting {
    type Pass = u64;

    type Task = u64;

    type Outcome = (u64, bool);

    ghost is_of = { λ meeting pass. ⊤ };

    fn split(&self, pass: &mut u64) -> Option<u64> {
        *pass = pass.checked_sub(1)?;
        Some(1)
    }

    fn run<R: Wait + Clock>(&self, rt: &R, pass: u64, task: u64) -> (u64, bool) {
        self.came.fetch_add(1, Ordering::SeqCst);
        for _ in 0..10_000 {
            if self.came.load(Ordering::SeqCst) == self.wanted {
                return (task.wrapping_add(pass), true);
            }
            thread::sleep(rt, Duration::from_millis(1));
        }
        (task.wrapping_add(pass), false)
    }
}

#[test]
fn all_run_at_once_each_by_its_own_pass(rt: HostRuntime) -> Result<(), Fail> {
    let meeting = Meeting {
        came: AtomicU64::new(0),
        wanted: 3,
    };
    let tasks = vec![in rt.alloc(); 10, 20, 30]?;
    let outcomes = run(&rt, rt.alloc(), &meeting, 7, tasks)?;
    assert!(rt; outcomes.as_slice() == [(11, true), (21, true), (35, true)].as_slice());
    Ok(())
}

#[test]
fn nobody_runs_where_the_pass_holds_too_few_numbers(rt: HostRuntime) -> Result<(), Fail> {
    let meeting = Meeting {
        came: AtomicU64::new(0),
        wanted: 3,
    };
    let tasks = vec![in rt.alloc(); 10, 20, 30]?;
    let refused = run(&rt, rt.alloc(), &meeting, 1, tasks);
    assert!(rt; refused.err() == Some(RaceError::NoNumber));
    assert!(rt; meeting.came.load(Ordering::SeqCst) == 0);
    assert!(rt; run(&rt, rt.alloc(), &meeting, 1, Vec::new(rt.alloc()))?.is_empty());
    Ok(())
}

#[test]
fn numbers_are_gathered_unless_one_failed(rt: HostRuntime) -> Result<(), Fail> {
    let mut all_found = Vec::new(rt.alloc());
    for numbers in [[3, 1], [0, 2]] {
        all_found.push(Found {
            numbers: Vec::from_array(rt.alloc(), numbers)?,
            failed: false,
        })?;
    }
    assert!(rt; are_numbers_below(gathered(rt.alloc(), all_found)?, 4));
    let failed = Found {
        numbers: Vec::new(rt.alloc()),
        failed: true,
    };
    let went_wrong = gathered(rt.alloc(), vec![in rt.alloc(); failed]?);
    assert!(rt; went_wrong.err() == Some(RaceError::WentWrong));
    Ok(())
}
