// Scripts played on their objects.
use super::repeated;
use crate::{Checked, check_history, drive_script, history_text, parse_script};
use ho_base::NoMemory;
use ho_io::{Gate, OpenGate};
use ho_model::Entry;
use pauses::Pause;
use std::alloc::Global;
use std::sync::Wait;
use std::sync::atomic::{AtomicU64, Ordering};
use std::test::Fail;
use std::thread::Threads;

/// How often a worker looks whether the others have come.
const MOST_LOOKS: u32 = 1_000_000;

// Whether a script is played, and its history has this text.
fn is_driven<R: Wait + Threads + Sync>(
    rt: &R,
    alloc: Global,
    script: &[u8],
    text: &[u8],
) -> Result<bool, NoMemory> {
    let Ok(script) = parse_script(alloc, script) else {
        return Ok(false);
    };
    let (history, _) = drive_script(rt, alloc, &script, &OpenGate)?;
    let written = history_text(alloc, &history)?;
    Ok(written.bytes() == text)
}

// How the history is judged that comes of playing a script.
fn judged<G: Gate, R: Wait + Threads + Sync>(
    rt: &R,
    alloc: Global,
    script: &[u8],
    gate: &G,
) -> Result<Option<Checked>, NoMemory> {
    let Ok(script) = parse_script(alloc, script) else {
        return Ok(None);
    };
    let (history, _) = drive_script(rt, alloc, &script, gate)?;
    let checked = check_history(alloc, &script, &history)?;
    Ok(Some(checked))
}

fn legal(entries: u64) -> Option<Checked> {
    Some(Checked::Legal { entries })
}

#[test]
fn one_caller_plays_a_queue_and_a_bag(rt: HostRuntime) -> Result<(), Fail> {
    let table = [
        (
            b"queue,2,2\n0,enq,7\n0,enq,8\n0,enq,9\n0,deq\n0,enq,9\n".as_slice(),
            b"0,0,enq,7,done\n1,0,enq,8,done\n2,0,enq,9,full\n3,0,deq,,item,7\n4,0,enq,9,done\n".as_slice(),
        ),
        (
            b"queue,2,1024\n0,peek\n0,enq,7\n0,peek\n0,count\n0,snap\n0,deq\n0,deq\n".as_slice(),
            b"0,0,peek,,empty\n1,0,enq,7,done\n2,0,peek,,item,7\n3,0,count,,count,1\n4,0,snap,,items,7\n5,0,deq,,item,7\n6,0,deq,,empty\n".as_slice(),
        ),
        (
            b"bag\n0,add,5\n0,snap\n0,count\n0,take\n0,take\n".as_slice(),
            b"0,0,add,5,done\n1,0,snap,,items,5\n2,0,count,,count,1\n3,0,take,,item,5,0\n4,0,take,,empty\n".as_slice(),
        ),
        (b"bag\n".as_slice(), b"".as_slice()),
    ];
    for (script, text) in table {
        assert!(rt; is_driven(&rt, rt.alloc(), script, text)?, "{script:?}");
    }
    Ok(())
}

#[test]
fn one_caller_plays_a_bounded_channel(rt: HostRuntime) -> Result<(), Fail> {
    let table = [
        (
            b"bounded,2,wait\n0,write,1\n0,write,2\n0,write,3\n0,read\n0,read\n".as_slice(),
            b"0,0,write,1,done\n1,0,write,2,done\n2,0,write,3,full\n3,0,read,,item,1\n4,0,read,,item,2\n".as_slice(),
        ),
        (
            b"bounded,2,dropnewest\n0,write,1\n0,write,2\n0,write,3\n0,read\n0,read\n".as_slice(),
            b"0,0,write,1,done\n1,0,write,2,done\n2,0,write,3,done,dropped,2\n3,0,read,,item,1\n4,0,read,,item,3\n".as_slice(),
        ),
        (
            b"bounded,1,wait\n0,write,1\n0,begin-write,2\n0,complete,9\n0,complete,0\n0,poll,0\n0,completed\n0,read\n0,completed\n0,read\n".as_slice(),
            b"0,0,write,1,done\n1,0,begin-write,2,waiting,0\n2,0,complete,9,yes\n3,0,complete,0,no\n4,0,poll,0,refused,9,2\n5,0,completed,,no\n6,0,read,,item,1\n7,0,completed,,yes\n8,0,read,,closed,9\n".as_slice(),
        ),
        (
            b"bounded,1,wait\n0,begin-look-read\n0,write,3\n0,poll,0\n0,begin-look-write\n0,read\n0,poll,1\n0,complete,0\n0,begin-look-read\n0,begin-look-write\n".as_slice(),
            b"0,0,begin-look-read,,waiting,0\n1,0,write,3,done\n2,0,poll,0,ready,1\n3,0,begin-look-write,,waiting,1\n4,0,read,,item,3\n5,0,poll,1,ready,1\n6,0,complete,0,yes\n7,0,begin-look-read,,ready,0\n8,0,begin-look-write,,ready,0\n".as_slice(),
        ),
    ];
    for (script, text) in table {
        assert!(rt; is_driven(&rt, rt.alloc(), script, text)?, "{script:?}");
    }
    Ok(())
}

#[test]
fn one_caller_plays_channels_that_drop(rt: HostRuntime) -> Result<(), Fail> {
    let table = [
        (
            b"bounded,2,dropoldest\n0,write,1\n0,write,2\n0,write,3\n0,begin-write,4\n0,count\n0,begin-look-write\n0,peek\n0,read\n0,read\n0,read\n0,complete,7\n0,write,5\n".as_slice(),
            b"0,0,write,1,done\n1,0,write,2,done\n2,0,write,3,done,dropped,1\n3,0,begin-write,4,done,dropped,2\n4,0,count,,count,2\n5,0,begin-look-write,,ready,1\n6,0,peek,,item,3\n7,0,read,,item,3\n8,0,read,,item,4\n9,0,read,,empty\n10,0,complete,7,yes\n11,0,write,5,refused,7,5\n".as_slice(),
        ),
        (
            b"bounded,2,dropwrite\n0,write,1\n0,write,2\n0,write,3\n0,begin-write,4\n0,begin-look-write\n0,read\n0,write,5\n0,read\n0,read\n0,begin-read\n0,write,6\n0,poll,2\n".as_slice(),
            b"0,0,write,1,done\n1,0,write,2,done\n2,0,write,3,done,dropped,3\n3,0,begin-write,4,done,dropped,4\n4,0,begin-look-write,,ready,1\n5,0,read,,item,1\n6,0,write,5,done\n7,0,read,,item,2\n8,0,read,,item,5\n9,0,begin-read,,waiting,2\n10,0,write,6,done\n11,0,poll,2,item,6\n".as_slice(),
        ),
        (
            b"bounded,1,dropnewest\n0,write,1\n0,begin-write,2\n0,count\n0,read\n0,complete,0\n0,begin-write,3\n0,read\n".as_slice(),
            b"0,0,write,1,done\n1,0,begin-write,2,done,dropped,1\n2,0,count,,count,1\n3,0,read,,item,2\n4,0,complete,0,yes\n5,0,begin-write,3,refused,0,3\n6,0,read,,closed,0\n".as_slice(),
        ),
    ];
    for (script, text) in table {
        assert!(rt; is_driven(&rt, rt.alloc(), script, text)?, "{script:?}");
    }
    Ok(())
}

#[test]
fn one_caller_plays_other_objects(rt: HostRuntime) -> Result<(), Fail> {
    let table = [
        (
            b"unbounded\n0,begin-read\n0,write,5\n0,cancel,0\n0,count\n0,cancel,0\n0,peek\n".as_slice(),
            b"0,0,begin-read,,waiting,0\n1,0,write,5,done\n2,0,cancel,0,item,5\n3,0,count,,count,0\n4,0,cancel,0,unknown\n5,0,peek,,empty\n".as_slice(),
        ),
        (
            b"prioritized\n0,write,2001\n0,write,1003\n0,write,1002\n0,peek\n0,read\n0,read\n0,read\n".as_slice(),
            b"0,0,write,2001,done\n1,0,write,1003,done\n2,0,write,1002,done\n3,0,peek,,item,1003\n4,0,read,,item,1003\n5,0,read,,item,1002\n6,0,read,,item,2001\n".as_slice(),
        ),
        (
            b"blocking,fifo,1\n0,add,4\n0,add,5\n0,complete\n0,complete\n0,add,6\n0,completed\n0,take\n0,take\n0,completed\n".as_slice(),
            b"0,0,add,4,done\n1,0,add,5,full\n2,0,complete,,done\n3,0,complete,,done\n4,0,add,6,closed\n5,0,completed,,no\n6,0,take,,item,4\n7,0,take,,ended\n8,0,completed,,yes\n".as_slice(),
        ),
    ];
    for (script, text) in table {
        assert!(rt; is_driven(&rt, rt.alloc(), script, text)?, "{script:?}");
    }
    Ok(())
}

// Waits until a count is as high as this, and tells whether it came to be.
fn reaches<R: Wait>(rt: &R, count: &AtomicU64, least: u64) -> bool {
    let mut pause = Pause::new();
    for _ in 0..MOST_LOOKS {
        if count.load(Ordering::SeqCst) >= least {
            return true;
        }
        pause.take(rt);
    }
    false
}

/// Lets a worker go on only once both have come, before their first calls.
#[derive(Drop)]
struct Meeting {
    came: AtomicU64,
    missed: AtomicU64,
}

impl Gate for Meeting {
    fn at<R: Wait>(&self, rt: &R, _worker: u32, turn: u64) {
        if turn > 0 {
            return;
        }
        self.came.fetch_add(1, Ordering::SeqCst);
        if !reaches(rt, &self.came, 2) {
            self.missed.store(1, Ordering::SeqCst);
        }
    }
}

#[test]
fn two_callers_meet_before_their_first_calls(rt: HostRuntime) -> Result<(), Fail> {
    let gate = Meeting {
        came: AtomicU64::new(0),
        missed: AtomicU64::new(0),
    };
    let script = b"queue,2,2\n0,enq,7\n1,deq\n1,enq,8\n0,deq\n";
    assert_eq!(rt; judged(&rt, rt.alloc(), script, &gate)?, legal(4));
    assert_eq!(rt; gate.missed.load(Ordering::SeqCst), 0);
    Ok(())
}

/// Counts its calls, and adds up their turns.
#[derive(Drop)]
struct Counting {
    calls: AtomicU64,
    turns: AtomicU64,
}

impl Gate for Counting {
    fn at<R: Wait>(&self, _rt: &R, _worker: u32, turn: u64) {
        self.calls.fetch_add(1, Ordering::SeqCst);
        self.turns.fetch_add(turn, Ordering::SeqCst);
    }
}

#[test]
fn the_gate_comes_before_each_call(rt: HostRuntime) -> Result<(), Fail> {
    let gate = Counting {
        calls: AtomicU64::new(0),
        turns: AtomicU64::new(0),
    };
    let script = b"bag\n0,add,1\n2,take\n0,add,2\n2,take\n2,count\n";
    assert_eq!(rt; judged(&rt, rt.alloc(), script, &gate)?, legal(5));
    assert_eq!(rt; gate.calls.load(Ordering::SeqCst), 5);
    assert_eq!(rt; gate.turns.load(Ordering::SeqCst), 4);
    Ok(())
}

/// How often caller 1 waits for caller 0.
const ROUNDS: u64 = 20;

/// Lets caller 0 and caller 1 make their calls by turns. Caller 0 is a call ahead, and its first call
/// waits for caller 1 to come: so workers that came after their calls, and not before, would make
/// another history.
#[derive(Drop)]
struct Alternating {
    ahead: AtomicU64,
    behind: AtomicU64,
    missed: AtomicU64,
}

impl Alternating {
    fn new() -> Alternating {
        Alternating {
            ahead: AtomicU64::new(0),
            behind: AtomicU64::new(0),
            missed: AtomicU64::new(0),
        }
    }
}

impl Gate for Alternating {
    fn at<R: Wait>(&self, rt: &R, worker: u32, turn: u64) {
        let came = turn.saturating_add(1);
        let met = if worker == 0 {
            self.ahead.store(came, Ordering::SeqCst);
            reaches(rt, &self.behind, turn.max(1))
        } else {
            self.behind.store(came, Ordering::SeqCst);
            turn >= ROUNDS || reaches(rt, &self.ahead, turn.saturating_add(3))
        };
        if !met {
            self.missed.store(1, Ordering::SeqCst);
        }
    }
}

// Who calls at this place of the history.
fn caller_in_turn(place: usize) -> u32 {
    if place > 0 && place % 2 == 0 { 1 } else { 0 }
}

// Whether the callers stand by turns, up to the last calls, which nothing holds back.
fn are_in_turn(entries: &[Entry]) -> bool {
    for (place, entry) in entries.iter().enumerate() {
        if place < 41 && entry.caller != caller_in_turn(place) {
            return false;
        }
    }
    true
}

#[test]
fn the_gate_holds_each_caller_back_at_each_turn(rt: HostRuntime) -> Result<(), Fail> {
    let alloc = rt.alloc();
    let text = repeated(alloc, b"queue,8,2\n0,enq,7\n", b"0,enq,8\n1,deq\n", 21)?;
    let Ok(script) = parse_script(alloc, &text) else {
        assert!(rt; false);
        return Ok(());
    };
    let gate = Alternating::new();
    let (history, _) = drive_script(&rt, alloc, &script, &gate)?;
    assert_eq!(rt; history.entries().len(), 43);
    assert!(rt; are_in_turn(history.entries()));
    assert_eq!(rt; gate.missed.load(Ordering::SeqCst), 0);
    Ok(())
}

// How the history of a long script is judged, whose 16 callers make these calls in turn.
fn long_judged<R: Wait + Threads + Sync>(
    rt: &R,
    alloc: Global,
    object: &[u8],
    calls: &[u8],
) -> Result<Option<Checked>, NoMemory> {
    let script = repeated(alloc, object, calls, 625)?;
    judged(rt, alloc, &script, &OpenGate)
}

#[test]
fn sixteen_callers_play_a_long_script(rt: HostRuntime) -> Result<(), Fail> {
    let alloc = rt.alloc();
    let channel =
        b"0,write,1\n1,read\n2,write,2\n3,read\n4,write,3\n5,read\n6,write,4\n7,read\n8,write,5\n9,read\n10,write,6\n11,read\n12,write,7\n13,read\n14,peek\n15,count\n0,read\n1,write,8\n2,read\n3,write,9\n4,read\n5,write,10\n6,read\n7,write,11\n8,read\n9,write,12\n10,read\n11,write,13\n12,read\n13,write,14\n14,read\n15,write,15\n";
    assert_eq!(rt;
        long_judged(&rt, alloc, b"bounded,8,dropoldest\n", channel)?,
        legal(20_000)
    );
    let adds =
        b"0,add,1\n1,take\n2,add,2\n3,take\n4,add,3\n5,take\n6,add,4\n7,take\n8,add,5\n9,take\n10,add,6\n11,take\n12,add,7\n13,take\n14,count\n15,count\n0,take\n1,add,8\n2,take\n3,add,9\n4,take\n5,add,10\n6,take\n7,add,11\n8,take\n9,add,12\n10,take\n11,add,13\n12,take\n13,add,14\n14,take\n15,add,15\n";
    assert_eq!(rt;
        long_judged(&rt, alloc, b"blocking,lifo,8\n", adds)?,
        legal(20_000)
    );
    assert_eq!(rt; long_judged(&rt, alloc, b"bag\n", adds)?, legal(20_000));
    Ok(())
}
