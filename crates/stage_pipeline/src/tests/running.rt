// Runs on many threads, beside the one-thread text.
ghost use Rattle.std.specs.Prelude.{◌≤◌};

use crate::{made_records, made_text, run_pipeline};
use ho_base::NoMemory;
use ho_io::{Gate, OpenGate};
use pauses::Pause;
use record_lang::{one_thread_text, parse_pipeline, read_records};
use std::alloc::Global;
use std::sync::Wait;
use std::sync::atomic::{AtomicU64, Ordering};
use std::test::Fail;
use std::thread::Threads;

/// How often a worker looks whether the others have come.
const MOST_LOOKS: u32 = 1_000_000;

const EIGHT: &[u8] =
    b"stage keep 0 ge 500\njoint wait 1\nstage add 0 5\njoint wait 1\nstage mul 0 3\njoint unbounded\nstage sum 0 1\nstage cat 0 1\njoint wait 65536\nstage copy 0\nstage match 0 1524\nstage cut 0\n";

const THREE: &[u8] =
    b"joint wait 1024\nstage keep 0 ge 500\njoint wait 1024\nstage add 0 5\njoint wait 1024\nstage cat 0 1\n";

const ONE: &[u8] = b"joint wait 1\nstage keep 0 ge 500\n";

// Products beyond 64 bits are refused, and feeding stops at record 3,000.
const REFUSING: &[u8] =
    b"guard 1 3000 77\nstage mul 0 9000000000000000\nstage mul 0 2\nstage keep 0 ge 5000\n";

// Every record is a result, or it is dropped.
const DROPS: &[u8] =
    b"joint dropwrite 4\nstage add 0 5\njoint dropoldest 1\nstage mul 0 3\njoint dropnewest 2\nstage copy 0\n";

// Whether a run over made records writes the one-thread text.
fn is_one_thread<R: Wait + Threads + Sync>(
    rt: &R,
    alloc: Global,
    pipeline: &[u8],
    count: u32,
    workers: u32,
) -> Result<bool, NoMemory>
    requires { (count ≤ 200000) × (1 ≤ workers) × (workers ≤ 16) }
{
    let Ok(pipeline) = parse_pipeline(alloc, pipeline) else {
        return Ok(false);
    };
    let records = made_records(alloc, count, 1)?;
    let ran = run_pipeline(rt, alloc, &pipeline, records, workers, &OpenGate)?;
    let again = made_records(alloc, count, 1)?;
    let text = one_thread_text(alloc, &pipeline, again)?;
    Ok(ran.text.bytes() == text.bytes())
}

#[test]
fn a_few_records(rt: HostRuntime) -> Result<(), Fail> {
    for workers in [1, 2, 3, 16] {
        assert!(rt; is_one_thread(&rt, rt.alloc(), ONE, 0, workers)?);
        assert!(rt; is_one_thread(&rt, rt.alloc(), ONE, 40, workers)?);
        assert!(rt; is_one_thread(&rt, rt.alloc(), THREE, 40, workers)?);
    }
    Ok(())
}

#[test]
fn eight_stages_of_16_workers(rt: HostRuntime) -> Result<(), Fail> {
    assert!(rt; is_one_thread(&rt, rt.alloc(), EIGHT, 2_000, 16)?);
    Ok(())
}

#[test]
fn refusals_and_a_guard(rt: HostRuntime) -> Result<(), Fail> {
    assert!(rt; is_one_thread(&rt, rt.alloc(), REFUSING, 4_000, 1)?);
    assert!(rt; is_one_thread(&rt, rt.alloc(), REFUSING, 4_000, 5)?);
    Ok(())
}

#[test]
fn twenty_thousand_records(rt: HostRuntime) -> Result<(), Fail> {
    assert!(rt; is_one_thread(&rt, rt.alloc(), THREE, 20_000, 4)?);
    Ok(())
}

// A text of so many stages, each fed by a joint with little room.
fn copying(alloc: Global, stages: u32) -> Result<Vec<u8>, NoMemory> {
    let mut text = Vec::new(alloc);
    for _ in 0..stages {
        text.extend_from_slice(b"joint wait 7\nstage copy 0\n")?;
    }
    Ok(text)
}

#[test]
fn one_to_eight_stages(rt: HostRuntime) -> Result<(), Fail> {
    for stages in 1..=8 {
        let pipeline = copying(rt.alloc(), stages)?;
        assert!(rt; is_one_thread(&rt, rt.alloc(), &pipeline, 60, 3)?);
    }
    Ok(())
}

// A joint with room for one record, which comes alone, drops nothing, and the counts tell so.
#[test]
fn one_record_through_a_joint_that_drops(rt: HostRuntime) -> Result<(), Fail> {
    let pipeline = parse_pipeline(rt.alloc(), b"joint dropwrite 1\nstage copy 0\n")?;
    let records = read_records(rt.alloc(), b"a\n")?;
    let ran = run_pipeline(&rt, rt.alloc(), &pipeline, records, 2, &OpenGate)?;
    let want = b"result,0,a,a\ncounts,1,1,0,0,0\nending,done\n";
    assert_eq!(rt; ran.text.bytes(), want.as_slice());
    Ok(())
}

// Whether a run over made records is told so.
fn is_made<R: Wait + Threads + Sync>(
    rt: &R,
    alloc: Global,
    count: u32,
    workers: u32,
    text: &[u8],
) -> Result<bool, NoMemory>
    requires { (count ≤ 200000) × (1 ≤ workers) × (workers ≤ 16) }
{
    let ran = made_text(rt, alloc, count, 1, workers, &OpenGate)?;
    Ok(ran.text.bytes() == text)
}

// The first numbers of seed 1 are 838, 758 and 113, and (838 + 5) times 3 and (758 + 5) times 3 are 4818.
#[test]
fn made_records_are_summed(rt: HostRuntime) -> Result<(), Fail> {
    let none = b"counts,0,0,0,0\nsum,0\nending,done\n";
    let three = b"counts,3,2,0,1\nsum,4818\nending,done\n";
    for workers in [1, 3, 16] {
        assert!(rt; is_made(&rt, rt.alloc(), 0, workers, none.as_slice())?);
        assert!(rt; is_made(&rt, rt.alloc(), 3, workers, three.as_slice())?);
    }
    Ok(())
}

/// Lets the workers of a stage go on only once all three have come, before their first calls.
#[derive(Drop)]
struct Meeting {
    came: AtomicU64,
    missed: AtomicU64,
}

impl Gate for Meeting {
    fn at<R: Wait>(&self, rt: &R, _worker: u32, turn: u64) {
        if turn > 0 {
            return;
        }
        self.came.fetch_add(1, Ordering::SeqCst);
        let mut pause = Pause::new();
        for _ in 0..MOST_LOOKS {
            if self.came.load(Ordering::SeqCst) >= 3 {
                return;
            }
            pause.take(rt);
        }
        self.missed.store(1, Ordering::SeqCst);
    }
}

#[test]
fn three_workers_meet_at_a_gate(rt: HostRuntime) -> Result<(), Fail> {
    let gate = Meeting {
        came: AtomicU64::new(0),
        missed: AtomicU64::new(0),
    };
    let pipeline = parse_pipeline(rt.alloc(), ONE)?;
    let records = made_records(rt.alloc(), 100, 1)?;
    let ran = run_pipeline(&rt, rt.alloc(), &pipeline, records, 3, &gate)?;
    assert!(rt; ran.text.bytes().ends_with(b"ending,done\n"));
    assert_eq!(rt; gate.came.load(Ordering::SeqCst), 3);
    assert_eq!(rt; gate.missed.load(Ordering::SeqCst), 0);
    Ok(())
}

/// Counts the turns of four workers, and tells a turn that is not the next.
#[derive(Drop)]
struct Counting {
    turns: [AtomicU64; 4],
    missed: AtomicU64,
}

impl Gate for Counting {
    fn at<R: Wait>(&self, _rt: &R, worker: u32, turn: u64) {
        match self.turns.get(worker as usize) {
            Some(next) if next.fetch_add(1, Ordering::SeqCst) == turn => {}
            _ => self.missed.store(1, Ordering::SeqCst),
        }
    }
}

#[test]
fn workers_call_the_gate_by_their_numbers(rt: HostRuntime) -> Result<(), Fail> {
    let zero = || AtomicU64::new(0);
    let gate = Counting {
        turns: [zero(), zero(), zero(), zero()],
        missed: AtomicU64::new(0),
    };
    let pipeline = parse_pipeline(rt.alloc(), b"stage add 0 5\nstage mul 0 3\n")?;
    let records = made_records(rt.alloc(), 100, 1)?;
    run_pipeline(&rt, rt.alloc(), &pipeline, records, 2, &gate)?;
    assert_eq!(rt; gate.missed.load(Ordering::SeqCst), 0);
    // Each worker of stage 1 reads, and those of stage 1 also write; each reads its joint's end.
    let mut calls: u64 = 0;
    for turns in &gate.turns {
        calls = calls.saturating_add(turns.load(Ordering::SeqCst));
    }
    assert_eq!(rt; calls, 100 + 100 + 2 + 100 + 2);
    Ok(())
}

// How many rows of a text begin with a word.
fn rows_with(text: &[u8], word: &[u8]) -> usize {
    text.split(|byte| *byte == b'\n')
        .filter(|row| row.starts_with(word))
        .count()
}

#[test]
fn joints_under_pressure_drop_and_tell_it(rt: HostRuntime) -> Result<(), Fail> {
    let pipeline = parse_pipeline(rt.alloc(), DROPS)?;
    let records = made_records(rt.alloc(), 2_000, 1)?;
    let ran = run_pipeline(&rt, rt.alloc(), &pipeline, records, 3, &OpenGate)?;
    let results = rows_with(ran.text.bytes(), b"result,");
    let dropped = rows_with(ran.text.bytes(), b"dropped,");
    assert_eq!(rt; results.saturating_add(dropped), 2_000);
    assert!(rt; results >= 1);
    assert!(rt; ran.joints().iter().all(|joint| joint.is_whole()));
    Ok(())
}
