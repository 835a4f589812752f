// Runs with crews of all sizes, beside `plain` over the same files.
use super::{PIPELINE, RECORDS, TEXT, plain, shelf_of, words_of};
use crate::run::run;
use crate::status::Status;
use ho_io::{FreeSink, Gate, OpenGate};
use std::alloc::Global;
use std::sync::atomic::{AtomicU64, Ordering};
use std::sync::{Barrier, Wait};
use std::test::Fail;
use std::thread::Threads;

/// Stages of which some filter records and some refuse them, in the order in which pipelines take them.
const STAGES: [&str; 8] = [
    "stage keep 1 ge 200",
    "stage add 1 9223372036854775000",
    "stage cat 0 1",
    "stage copy 1",
    "stage mul 0 3",
    "stage keep 0 lt 300",
    "stage sum 0 0",
    "stage cut 2",
];

const CAPACITIES: [u32; 6] = [1, 2, 3, 16, 1_024, 65_536];

// So many records: each has its number, and a number below 1,000.
pub(super) fn numbered(alloc: Global, count: u32) -> Result<Vec<u8>, Fail> {
    let mut text = Vec::new(alloc);
    for number in 0..count {
        let below = number.wrapping_mul(37) % 1_000;
        let row = format!(in alloc; "{number},{below}\n")?;
        text.extend_from_slice(row.as_bytes())?;
    }
    Ok(text)
}

// So many stages, each fed by a joint of this kind.
pub(super) fn pipeline_of(alloc: Global, stages: usize, joint: &str) -> Result<Vec<u8>, Fail> {
    let mut text = Vec::new(alloc);
    for stage in STAGES.iter().take(stages) {
        let lines = format!(in alloc; "joint {joint}\n{stage}\n")?;
        text.extend_from_slice(lines.as_bytes())?;
    }
    Ok(text)
}

// What `run p f WORKERS` writes over these files.
pub(super) fn run_by<G: Gate, R: Wait + Threads + Sync>(
    rt: &R,
    alloc: Global,
    files: (&[u8], &[u8]),
    workers: u32,
    gate: &G,
) -> Result<(Status, Vec<u8>), Fail> {
    let (pipe, records) = files;
    let number = format!(in alloc; "{workers}")?;
    let words = words_of(alloc, &[b"run", b"p", b"f", number.as_bytes()])?;
    let mut shelf = shelf_of(alloc, pipe, records)?;
    let mut out = FreeSink::new(alloc, 65_536);
    let finished = run(rt, alloc, &words, &mut shelf, &mut out, gate);
    Ok((finished.status, out.taken().to_vec(alloc)?))
}

#[test]
fn crews_of_1_to_16_write_what_plain_writes(rt: HostRuntime) -> Result<(), Fail> {
    let alloc = rt.alloc();
    let records = numbered(alloc, 150)?;
    for stages in 1..=8 {
        for (index, capacity) in CAPACITIES.iter().enumerate() {
            let joint = format!(in alloc; "wait {capacity}")?;
            let pipe = pipeline_of(alloc, stages, joint.as_str())?;
            let (status, want) = plain(alloc, &pipe, &records)?;
            assert_eq!(rt; status, Status::Done, "{stages} stages");
            for workers in [1 + (index as u32), 8 + (stages as u32)] {
                let files = (pipe.as_slice(), records.as_slice());
                let (status, text) = run_by(&rt, alloc, files, workers, &OpenGate)?;
                assert_eq!(rt;
                    status,
                    Status::Done,
                    "{stages} stages, {joint}, {workers} workers"
                );
                assert!(rt; text == want, "{stages} stages, {joint}, {workers} workers");
            }
        }
    }
    Ok(())
}

#[test]
fn crews_behind_joints_without_bound_write_what_plain_writes(rt: HostRuntime) -> Result<(), Fail> {
    let alloc = rt.alloc();
    let records = numbered(alloc, 150)?;
    let pipe = pipeline_of(alloc, 8, "unbounded")?;
    let (_, want) = plain(alloc, &pipe, &records)?;
    for workers in 1..=16 {
        let files = (pipe.as_slice(), records.as_slice());
        let (status, text) = run_by(&rt, alloc, files, workers, &OpenGate)?;
        assert_eq!(rt; status, Status::Done, "{workers} workers");
        assert!(rt; text == want, "{workers} workers");
    }
    Ok(())
}

/// Lets the three workers of a stage go on only once all have come, before their first calls.
#[derive(Drop)]
struct Meeting {
    all: Barrier,
    came: AtomicU64,
}

impl Gate for Meeting {
    fn at<R: Wait>(&self, rt: &R, _worker: u32, turn: u64) {
        if turn == 0 {
            self.came.fetch_add(1, Ordering::SeqCst);
            self.all.wait(rt);
        }
    }
}

// Were the workers not side by side, the first would wait for ever.
#[test]
fn three_workers_of_each_stage_meet_at_a_gate(rt: HostRuntime) -> Result<(), Fail> {
    let gate = Meeting {
        all: Barrier::new(3),
        came: AtomicU64::new(0),
    };
    let (status, text) = run_by(&rt, rt.alloc(), (PIPELINE, RECORDS), 3, &gate)?;
    assert_eq!(rt; status, Status::Done);
    assert_eq!(rt; text.as_slice(), TEXT);
    assert_eq!(rt;
        gate.came.load(Ordering::SeqCst),
        6,
        "two stages of three workers"
    );
    Ok(())
}
