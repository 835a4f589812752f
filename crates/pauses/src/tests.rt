use super::*;
use std::sync::Wait;
use std::sync::atomic::{AtomicU64, Ordering};
use std::test::Fail;
use std::thread;
use std::thread::join;
use std::time::Duration;

/// How many pauses a caller takes at most, which lasts longer than a test may.
const MOST_PAUSES: u32 = 20_000;

/// How many pauses a caller takes at most until its ring, 50 milliseconds after its start.
const FEW: u32 = 40;

/// Takes pauses until the word is set, and says how many.
fn pauses_until<R: Wait>(rt: &R, bells: &Bells, caller: u32, want: Want, word: &AtomicU64) -> u32 {
    let mut nap = Nap::of_wait(want);
    for count in 0..MOST_PAUSES {
        if word.load(Ordering::SeqCst) != 0 {
            nap.end(bells, caller);
            return count;
        }
        nap.take(rt, bells, caller);
    }
    MOST_PAUSES
}

#[test]
fn a_caller_that_waits_long_takes_few_pauses(rt: HostRuntime) -> Result<(), Fail> {
    let bells = Bells::new();
    let word = AtomicU64::new(0);
    let (count, _) = join(
        &rt,
        || pauses_until(&rt, &bells, 7, Want::Room, &word),
        || {
            thread::sleep(&rt, Duration::from_millis(50));
            word.store(1, Ordering::SeqCst);
            bells.tell(News::Room);
        },
    );
    assert!(rt; count < FEW);
    Ok(())
}

#[test]
fn each_ring_wakes_one_and_the_longest_first(rt: HostRuntime) -> Result<(), Fail> {
    let bells = Bells::new();
    bells.note(3, 20);
    bells.note(5, 10);
    bells.put_on(Want::Item, 3);
    bells.put_on(Want::Item, 5);
    bells.ring(Want::Room);
    assert!(rt;
        bells.bell(3).load(Ordering::SeqCst) == 0 && bells.bell(5).load(Ordering::SeqCst) == 0
    );
    bells.ring(Want::Item);
    assert!(rt;
        bells.bell(3).load(Ordering::SeqCst) == 0 && bells.bell(5).load(Ordering::SeqCst) == 1
    );
    assert!(rt; !bells.take_off(Want::Item, 5));
    bells.wake_all();
    assert!(rt;
        bells.bell(3).load(Ordering::SeqCst) == 1 && bells.bell(5).load(Ordering::SeqCst) == 1
    );
    assert!(rt; !bells.take_off(Want::Item, 3));
    assert!(rt; bells.listed() == 0);
    Ok(())
}

#[test]
fn who_stands_on_a_list_is_counted_until_it_is_off(rt: HostRuntime) -> Result<(), Fail> {
    let bells = Bells::new();
    bells.put_on(Want::Item, 3);
    bells.put_on(Want::SeeRoom, 4);
    assert!(rt; bells.listed() == 2);
    assert!(rt; bells.take_off(Want::Item, 3));
    assert!(rt; !bells.take_off(Want::Item, 3));
    assert!(rt; bells.listed() == 1);
    bells.tell(News::Room);
    assert!(rt; bells.listed() == 0);
    assert!(rt; bells.bell(4).load(Ordering::SeqCst) == 1);
    Ok(())
}

#[test]
fn a_ring_that_comes_too_late_is_passed_on(rt: HostRuntime) -> Result<(), Fail> {
    let bells = Bells::new();
    bells.note(5, 20);
    bells.put_on(Want::Item, 5);
    let mut nap = Nap::of_wait(Want::Item);
    for _ in 0..FEW {
        if bells.take_off(Want::Item, 3) {
            bells.put_on(Want::Item, 3);
            break;
        }
        nap.take(&rt, &bells, 3);
    }
    bells.ring(Want::Item);
    assert!(rt;
        bells.bell(3).load(Ordering::SeqCst) == 1 && bells.bell(5).load(Ordering::SeqCst) == 0
    );
    nap.end(&bells, 3);
    assert!(rt; bells.bell(5).load(Ordering::SeqCst) == 1);
    Ok(())
}

#[test]
fn all_who_look_are_told(rt: HostRuntime) -> Result<(), Fail> {
    let bells = Bells::new();
    for caller in 0..4u32 {
        bells.put_on(Want::SeeItem, caller);
    }
    bells.put_on(Want::Item, 9);
    bells.tell(News::Room);
    assert!(rt; bells.bell(0).load(Ordering::SeqCst) == 0);
    bells.tell(News::Item);
    for caller in 0..4u32 {
        assert!(rt; bells.bell(caller).load(Ordering::SeqCst) == 1);
    }
    assert!(rt; bells.bell(9).load(Ordering::SeqCst) == 1);
    Ok(())
}
