// Whole runs of `run` and of `made`. The expected bytes are worked by hand from the formats, and the sums
// of made records by a script beside the program.
use super::{ONE_STAGE, PIPELINE, RECORDS, TEXT, failing_shelf, plain, shelf_of, words_of};
use crate::commands::waits;
use crate::finished::Shown;
use crate::run::run;
use crate::status::Status;
use ho_io::{FreeShelf, FreeSink, MemSink, OpenGate};
use std::alloc::Global;
use std::sync::Wait;
use std::test::Fail;
use std::thread::Threads;

// The pipeline of the plain rows, with room for one record before each stage.
const NARROW: &[u8] = b"joint wait 1\nstage keep 1 ge 10\njoint wait 1\nstage add 1 5\n";

// How many joints are shown, if a run is.
fn joints_of(shown: &Shown) -> Option<usize> {
    match shown {
        Shown::Ran(ran) => Some(ran.joints().len()),
        Shown::Nothing | Shown::Driven(_) => None,
    }
}

// Runs `run p f WORKERS` over these files, and writes in pieces of a few bytes.
fn run_files<R: Wait + Threads + Sync>(
    rt: &R,
    alloc: Global,
    pipe: &[u8],
    records: &[u8],
    workers: &[u8],
) -> Result<(Status, Vec<u8>, Option<usize>), Fail> {
    let words = words_of(alloc, &[b"run", b"p", b"f", workers])?;
    let mut shelf = shelf_of(alloc, pipe, records)?;
    let mut out = FreeSink::new(alloc, 7);
    let finished = run(rt, alloc, &words, &mut shelf, &mut out, &OpenGate);
    let joints = joints_of(&finished.shown);
    Ok((finished.status, out.taken().to_vec(alloc)?, joints))
}

// Runs `made COUNT SEED WORKERS`.
fn run_made<R: Wait + Threads + Sync>(
    rt: &R,
    alloc: Global,
    words: [&[u8]; 3],
) -> Result<(Status, Vec<u8>, Option<usize>), Fail> {
    let [count, seed, workers] = words;
    let words = words_of(alloc, &[b"made", count, seed, workers])?;
    let mut shelf = FreeShelf::new(alloc);
    let mut out = FreeSink::new(alloc, 64);
    let finished = run(rt, alloc, &words, &mut shelf, &mut out, &OpenGate);
    let joints = joints_of(&finished.shown);
    Ok((finished.status, out.taken().to_vec(alloc)?, joints))
}

#[test]
fn any_number_of_workers_writes_the_one_thread_text(rt: HostRuntime) -> Result<(), Fail> {
    for workers in [b"1".as_slice(), b"3", b"16"] {
        let (status, text, joints) = run_files(&rt, rt.alloc(), NARROW, RECORDS, workers)?;
        assert_eq!(rt; status, Status::Done, "{workers:?}");
        assert_eq!(rt; text.as_slice(), TEXT, "{workers:?}");
        assert_eq!(rt; joints, Some(2), "{workers:?}");
    }
    Ok(())
}

#[test]
fn runs_write_their_texts(rt: HostRuntime) -> Result<(), Fail> {
    let table: [(&[u8], &[u8], &[u8], Status, &[u8], usize); 4] = [
        (
            b"guard 0 ann 9\nstage keep 1 ge 10\nstage add 1 5\n",
            RECORDS,
            b"3",
            Status::Ended,
            b"counts,0,0,0,0\nending,guard,9\n",
            2,
        ),
        (
            b"stage add 1 5\nguard 0 bob 65535",
            RECORDS,
            b"2",
            Status::Ended,
            b"result,0,ann,17\ncounts,1,1,0,0\nending,guard,65535\n",
            1,
        ),
        (
            b"# orders above 100, with 20 added\njoint wait 64\nstage keep 2 gt 100\njoint wait 64\nstage add 2 20\nstage cat 0 1\n",
            b"1001,\"Miller, Ann\",250\r\n1002,Bob,80\r\n1003,\"O\"\"Neil\",n/a\r\n",
            b"4",
            Status::Done,
            b"result,0,1001,\"Miller, Ann\",270,\"1001Miller, Ann\"\nrefused,2,1,2\ncounts,3,1,1,1\nending,done\n",
            3,
        ),
        (
            b"joint dropwrite 1\nstage copy 0\n",
            b"a\n",
            b"2",
            Status::Done,
            b"result,0,a,a\ncounts,1,1,0,0,0\nending,done\n",
            1,
        ),
    ];
    for (pipe, records, workers, status, text, joints) in table {
        let (answer, taken, shown) = run_files(&rt, rt.alloc(), pipe, records, workers)?;
        assert_eq!(rt; answer, status, "{pipe:?}");
        assert_eq!(rt; taken.as_slice(), text, "{pipe:?}");
        assert_eq!(rt; shown, Some(joints), "{pipe:?}");
    }
    Ok(())
}

#[test]
fn runs_are_refused_as_plain_is(rt: HostRuntime) -> Result<(), Fail> {
    let table: [(&[u8], &[u8], Status, &[u8]); 5] = [
        (
            b"joint wait 0\nstage cut 0\n",
            b"",
            Status::SpecRefused,
            b"spec,p,0,4\n",
        ),
        (b"", b"", Status::SpecRefused, b"spec,p,0,6\n"),
        (
            b"stage cut\n",
            b"a,b\nc\n",
            Status::SpecRefused,
            b"spec,p,0,3\n",
        ),
        (
            b"stage cut 0\njoint dropwrite 1\n",
            b"",
            Status::SpecRefused,
            b"spec,p,2,7\n",
        ),
        (
            b"stage cut 0\n",
            b"a,b\nc\n",
            Status::InputRefused,
            b"input,1,1\n",
        ),
    ];
    for (pipe, records, status, text) in table {
        let (answer, taken, joints) = run_files(&rt, rt.alloc(), pipe, records, b"2")?;
        assert_eq!(rt; answer, status, "{pipe:?}");
        assert_eq!(rt; taken.as_slice(), text, "{pipe:?}");
        assert_eq!(rt; joints, None, "{pipe:?}");
        let (answer, taken) = plain(rt.alloc(), pipe, records)?;
        assert_eq!(rt; answer, status, "{pipe:?}");
        assert_eq!(rt; taken.as_slice(), text, "{pipe:?}");
    }
    Ok(())
}

#[test]
fn made_records_are_summed(rt: HostRuntime) -> Result<(), Fail> {
    let table: [([&[u8]; 3], &[u8]); 3] = [
        (
            [b"3", b"1", b"2"],
            b"counts,3,2,0,1\nsum,4818\nending,done\n",
        ),
        ([b"0", b"5", b"3"], b"counts,0,0,0,0\nsum,0\nending,done\n"),
        (
            [
                b"00000000000000000003",
                b"00000000000000000001",
                b"00000000000000000016",
            ],
            b"counts,3,2,0,1\nsum,4818\nending,done\n",
        ),
    ];
    for (words, text) in table {
        let (status, taken, joints) = run_made(&rt, rt.alloc(), words)?;
        assert_eq!(rt; status, Status::Done, "{words:?}");
        assert_eq!(rt; taken.as_slice(), text, "{words:?}");
        assert_eq!(rt; joints, Some(3), "{words:?}");
    }
    Ok(())
}

#[test]
fn twenty_thousand_made_records_are_summed_by_any_number_of_workers(
    rt: HostRuntime,
) -> Result<(), Fail> {
    for workers in [b"1".as_slice(), b"4", b"16"] {
        let (status, text, _) = run_made(&rt, rt.alloc(), [b"20000", b"1", workers])?;
        assert_eq!(rt; status, Status::Done, "{workers:?}");
        assert_eq!(rt;
            text.as_slice(),
            b"counts,20000,9881,0,10119\nsum,22273356\nending,done\n".as_slice(),
            "{workers:?}"
        );
    }
    Ok(())
}

#[test]
fn the_largest_numbers_of_made_have_its_form(rt: HostRuntime) -> Result<(), Fail> {
    let alloc = rt.alloc();
    let words = words_of(alloc, &[b"made", b"200000", b"2147483647", b"16"])?;
    assert!(rt; waits(&words));
    for words in [
        [b"made".as_slice(), b"200001", b"0", b"1"],
        [b"made".as_slice(), b"1", b"2147483648", b"1"],
        [b"made".as_slice(), b"1", b"0", b"17"],
    ] {
        let words = words_of(alloc, &words)?;
        assert!(rt; !waits(&words));
    }
    Ok(())
}

#[test]
fn a_failed_fetch_of_a_run_writes_nothing(rt: HostRuntime) -> Result<(), Fail> {
    let alloc = rt.alloc();
    let words = words_of(alloc, &[b"run", b"p", b"f", b"3"])?;
    // Each file takes one fetch for its bytes and one that finds its end.
    for call in 0..5 {
        let mut shelf = failing_shelf(alloc, &[(b"p", PIPELINE), (b"f", RECORDS)], call)?;
        let mut out = FreeSink::new(alloc, 64);
        let finished = run(&rt, alloc, &words, &mut shelf, &mut out, &OpenGate);
        let (status, text, joints) = if call < 4 {
            (Status::ReadFault, b"".as_slice(), None)
        } else {
            (Status::Done, TEXT, Some(2))
        };
        assert_eq!(rt; finished.status, status, "at fetch {call}");
        assert_eq!(rt; out.taken(), text, "at fetch {call}");
        assert_eq!(rt; joints_of(&finished.shown), joints, "at fetch {call}");
    }
    Ok(())
}

#[test]
fn the_pipeline_of_a_run_is_judged_before_its_records_are_fetched(
    rt: HostRuntime,
) -> Result<(), Fail> {
    let alloc = rt.alloc();
    let words = words_of(alloc, &[b"run", b"p", b"f", b"1"])?;
    let table: [(&[(&[u8], &[u8])], u64, Status, &[u8]); 4] = [
        (&[(b"p", ONE_STAGE), (b"f", b"")], 0, Status::ReadFault, b""),
        (&[(b"f", RECORDS)], 0, Status::Missing, b"missing,p\n"),
        (
            &[(b"p", b"stage cut\n"), (b"f", RECORDS)],
            2,
            Status::SpecRefused,
            b"spec,p,0,3\n",
        ),
        (&[(b"p", PIPELINE)], 2, Status::Missing, b"missing,f\n"),
    ];
    for (files, call, status, text) in table {
        let mut shelf = failing_shelf(alloc, files, call)?;
        let mut out = FreeSink::new(alloc, 64);
        let finished = run(&rt, alloc, &words, &mut shelf, &mut out, &OpenGate);
        assert_eq!(rt; finished.status, status, "at fetch {call}");
        assert_eq!(rt; out.taken(), text, "at fetch {call}");
    }
    Ok(())
}

#[test]
fn a_failed_put_of_a_run_leaves_the_front_and_shows_nothing(rt: HostRuntime) -> Result<(), Fail> {
    let alloc = rt.alloc();
    let words = words_of(alloc, &[b"run", b"p", b"f", b"2"])?;
    // The text has 57 bytes, so eight puts of 8 bytes at most.
    for call in 0..9usize {
        let mut shelf = shelf_of(alloc, PIPELINE, RECORDS)?;
        let mut out = MemSink::new(alloc, 8);
        out.fail_at(call as u64)?;
        let finished = run(&rt, alloc, &words, &mut shelf, &mut out, &OpenGate);
        let (status, joints) = if call < 8 {
            (Status::WriteFault, None)
        } else {
            (Status::Done, Some(2))
        };
        assert_eq!(rt; finished.status, status, "at put {call}");
        assert_eq!(rt; joints_of(&finished.shown), joints, "at put {call}");
        assert_eq!(rt; out.taken(), &TEXT[..(8 * call).min(57)], "at put {call}");
    }
    Ok(())
}

#[test]
fn a_failed_put_of_a_run_on_made_records_leaves_the_front(rt: HostRuntime) -> Result<(), Fail> {
    let alloc = rt.alloc();
    let words = words_of(alloc, &[b"made", b"3", b"1", b"2"])?;
    let want = b"counts,3,2,0,1\nsum,4818\nending,done\n".as_slice();
    // The text has 36 bytes, so five puts of 8 bytes at most. No file is fetched, so no fetch fails.
    for call in 0..6usize {
        let mut shelf = failing_shelf(alloc, &[], 0)?;
        let mut out = MemSink::new(alloc, 8);
        out.fail_at(call as u64)?;
        let finished = run(&rt, alloc, &words, &mut shelf, &mut out, &OpenGate);
        let (status, joints) = if call < 5 {
            (Status::WriteFault, None)
        } else {
            (Status::Done, Some(3))
        };
        assert_eq!(rt; finished.status, status, "at put {call}");
        assert_eq!(rt; joints_of(&finished.shown), joints, "at put {call}");
        assert_eq!(rt; out.taken(), &want[..(8 * call).min(36)], "at put {call}");
    }
    Ok(())
}
