// Whole runs of `drive`. The expected rows are worked by hand from the model and the formats.
use super::judged::check;
use super::{repeated, words_of};
use crate::finished::Shown;
use crate::run::run;
use crate::status::Status;
use ho_base::Word;
use ho_io::{FreeShelf, FreeSink, MemShelf, MemSink, OpenGate};
use std::alloc::Global;
use std::sync::Wait;
use std::test::Fail;
use std::thread::Threads;

// Runs `drive s` over a script's file. A pass is shown exactly with the text of a history.
fn drive<R: Wait + Threads + Sync>(
    rt: &R,
    alloc: Global,
    script: &[u8],
) -> Result<(Status, Vec<u8>), Fail> {
    let words = words_of(alloc, &[b"drive", b"s"])?;
    let mut shelf = FreeShelf::new(alloc);
    shelf.add(Word::new(alloc, b"s")?, script)?;
    let mut out = FreeSink::new(alloc, 64);
    let finished = run(rt, alloc, &words, &mut shelf, &mut out, &OpenGate);
    Ok((finished.status, out.taken().to_vec(alloc)?))
}

#[test]
fn refused_scripts_are_not_played(rt: HostRuntime) -> Result<(), Fail> {
    let alloc = rt.alloc();
    let words = words_of(alloc, &[b"drive", b"s"])?;
    let table: [(&[u8], Status, &[u8]); 5] = [
        (b"queue,2,3\n", Status::SpecRefused, b"spec,s,0,2\n"),
        (b"", Status::SpecRefused, b"spec,s,0,1\n"),
        (b"queue,2,2\n16,deq\n", Status::SpecRefused, b"spec,s,1,3\n"),
        (b"queue,2,2\n0,fly\n", Status::SpecRefused, b"spec,s,1,4\n"),
        (b"queue,2,2\n0,enq\n", Status::SpecRefused, b"spec,s,1,5\n"),
    ];
    for (script, status, text) in table {
        let mut shelf = FreeShelf::new(alloc);
        shelf.add(Word::new(alloc, b"s")?, script)?;
        let mut out = FreeSink::new(alloc, 64);
        let finished = run(&rt, alloc, &words, &mut shelf, &mut out, &OpenGate);
        assert_eq!(rt; finished.status, status);
        assert!(rt; is_nothing(&finished.shown));
        assert_eq!(rt; out.taken(), text);
    }
    Ok(())
}

fn is_nothing(shown: &Shown) -> bool {
    match shown {
        Shown::Nothing => true,
        Shown::Driven(_) | Shown::Ran(_) => false,
    }
}

#[test]
fn scripts_are_played_and_their_objects_shown(rt: HostRuntime) -> Result<(), Fail> {
    let alloc = rt.alloc();
    let words = words_of(alloc, &[b"drive", b"s"])?;
    let table: [(&[u8], &[u8]); 4] = [
        (
            b"queue,2,2\n0,enq,7\n0,enq,8\n0,enq,9\n0,deq\n",
            b"0,0,enq,7,done\n1,0,enq,8,done\n2,0,enq,9,full\n3,0,deq,,item,7\n",
        ),
        (
            b"bag\n0,add,5\n0,add,6\n0,snap\n0,take\n",
            b"0,0,add,5,done\n1,0,add,6,done\n2,0,snap,,items,5,6\n3,0,take,,item,6,0\n",
        ),
        (
            b"unbounded\n0,begin-read\n0,write,5\n0,cancel,0\n0,cancel,0\n",
            b"0,0,begin-read,,waiting,0\n1,0,write,5,done\n2,0,cancel,0,item,5\n3,0,cancel,0,unknown\n",
        ),
        (b"bag\n", b""),
    ];
    for (script, history) in table {
        let mut shelf = FreeShelf::new(alloc);
        shelf.add(Word::new(alloc, b"s")?, script)?;
        let mut out = FreeSink::new(alloc, 64);
        let finished = run(&rt, alloc, &words, &mut shelf, &mut out, &OpenGate);
        assert_eq!(rt; finished.status, Status::Done, "{script:?}");
        assert!(rt; !is_nothing(&finished.shown), "{script:?}");
        assert_eq!(rt; out.taken(), history, "{script:?}");
    }
    Ok(())
}

#[test]
fn nothing_is_shown_where_a_history_was_not_written_whole(rt: HostRuntime) -> Result<(), Fail> {
    let alloc = rt.alloc();
    let words = words_of(alloc, &[b"drive", b"s"])?;
    let history = b"0,0,enq,7,done\n".as_slice();
    // The row has 15 bytes, so three puts of 6 bytes at most.
    for call in 0..4usize {
        let mut shelf = FreeShelf::new(alloc);
        shelf.add(Word::new(alloc, b"s")?, b"queue,2,2\n0,enq,7\n")?;
        let mut out = MemSink::new(alloc, 6);
        out.fail_at(call as u64)?;
        let finished = run(&rt, alloc, &words, &mut shelf, &mut out, &OpenGate);
        let want = if call < 3 {
            Status::WriteFault
        } else {
            Status::Done
        };
        assert_eq!(rt; finished.status, want, "at put {call}");
        assert_eq!(rt; is_nothing(&finished.shown), call < 3, "at put {call}");
        assert_eq!(rt;
            out.taken(),
            &history[..(6 * call).min(15)],
            "at put {call}"
        );
    }
    Ok(())
}

#[test]
fn scripts_have_20_digits_a_number_and_may_have_quotes(rt: HostRuntime) -> Result<(), Fail> {
    let table: [(&[u8], Status, &[u8]); 12] = [
        (b"queue,2,2\r0,enq,7\r", Status::Done, b"0,0,enq,7,done\n"),
        (
            b"\"bag\"\r\n\"0\",\"add\",\"5\"\r\n",
            Status::Done,
            b"0,0,add,5,done\n",
        ),
        (
            b"unbounded\n00000000000000000000,write,00000000000000000007",
            Status::Done,
            b"0,0,write,7,done\n",
        ),
        (
            b"unbounded\n0,write,18446744073709551615\n",
            Status::Done,
            b"0,0,write,18446744073709551615,done\n",
        ),
        (
            b"unbounded\n0,write,18446744073709551616\n",
            Status::SpecRefused,
            b"spec,s,1,5\n",
        ),
        (b"\"bag\r\"\n", Status::SpecRefused, b"spec,s,0,2\n"),
        (b"\"ba\"\"g\"\n", Status::SpecRefused, b"spec,s,0,2\n"),
        (
            b"queue,000000000000000000002,2\n",
            Status::SpecRefused,
            b"spec,s,0,2\n",
        ),
        (
            b"bag\n000000000000000000000,take\n",
            Status::SpecRefused,
            b"spec,s,1,3\n",
        ),
        (
            b"unbounded\n0,\"re\rad\"\n",
            Status::SpecRefused,
            b"spec,s,1,4\n",
        ),
        (
            b"unbounded\n0,poll,000000000000000000000\n",
            Status::SpecRefused,
            b"spec,s,1,5\n",
        ),
        (b"\r\n\n\r", Status::SpecRefused, b"spec,s,0,1\n"),
    ];
    for (script, status, text) in table {
        let (answer, taken) = drive(&rt, rt.alloc(), script)?;
        assert_eq!(rt; answer, status, "{script:?}");
        assert_eq!(rt; taken.as_slice(), text, "{script:?}");
    }
    Ok(())
}

#[test]
fn a_script_has_100_snapshots_at_most(rt: HostRuntime) -> Result<(), Fail> {
    let alloc = rt.alloc();
    let snaps = repeated(alloc, b"bag\n", b"0,snap\n", 100)?;
    let (status, _) = drive(&rt, alloc, &snaps)?;
    assert_eq!(rt; status, Status::Done, "a script of 100 snapshots");
    let snaps = repeated(alloc, &snaps, b"0,snap\n", 1)?;
    let (status, text) = drive(&rt, alloc, &snaps)?;
    assert_eq!(rt; status, Status::SpecRefused);
    assert_eq!(rt; text.as_slice(), b"spec,s,101,6\n".as_slice());
    Ok(())
}

#[test]
fn a_script_has_4194304_bytes_at_most(rt: HostRuntime) -> Result<(), Fail> {
    let alloc = rt.alloc();
    let mut script = b"bag\n".to_vec(alloc)?;
    script.resize(4_194_304, b'\n')?;
    let (status, _) = drive(&rt, alloc, &script)?;
    assert_eq!(rt; status, Status::Done, "a script of 4,194,304 bytes");
    script.push(b'\n')?;
    let (status, text) = drive(&rt, alloc, &script)?;
    assert_eq!(rt; status, Status::TooLarge);
    assert_eq!(rt; text.as_slice(), b"large,s\n".as_slice());
    Ok(())
}

#[test]
fn a_history_of_20000_rows_is_played_and_judged(rt: HostRuntime) -> Result<(), Fail> {
    let alloc = rt.alloc();
    let script = repeated(alloc, b"queue,2,2\n", b"0,deq\n", 20_000)?;
    let (status, history) = drive(&rt, alloc, &script)?;
    assert_eq!(rt; status, Status::Done);
    let (status, text) = check(alloc, &script, &history)?;
    assert_eq!(rt; status, Status::Done);
    assert_eq!(rt; text.as_slice(), b"legal,20000\n".as_slice());
    let history = repeated(alloc, &history, b"20000,0,deq,,empty\n", 1)?;
    let (status, text) = check(alloc, &script, &history)?;
    assert_eq!(rt; status, Status::TooLarge);
    assert_eq!(rt; text.as_slice(), b"large,h\n".as_slice());

    let script = repeated(alloc, &script, b"0,deq\n", 1)?;
    let (status, text) = drive(&rt, alloc, &script)?;
    assert_eq!(rt; status, Status::TooLarge);
    assert_eq!(rt; text.as_slice(), b"large,s\n".as_slice());
    Ok(())
}

#[test]
fn a_failed_fetch_of_a_script_plays_nothing(rt: HostRuntime) -> Result<(), Fail> {
    let alloc = rt.alloc();
    let words = words_of(alloc, &[b"drive", b"s"])?;
    // The file takes one fetch for its bytes and one that finds its end.
    for call in 0..3 {
        let mut shelf = MemShelf::new(alloc);
        shelf.add(Word::new(alloc, b"s")?, b"bag\n0,add,5\n")?;
        shelf.fail_at(call)?;
        let mut out = FreeSink::new(alloc, 64);
        let finished = run(&rt, alloc, &words, &mut shelf, &mut out, &OpenGate);
        let (want, text) = if call < 2 {
            (7, b"".as_slice())
        } else {
            (0, b"0,0,add,5,done\n".as_slice())
        };
        assert_eq!(rt; finished.status.number(), want, "at fetch {call}");
        assert_eq!(rt; is_nothing(&finished.shown), call < 2, "at fetch {call}");
        assert_eq!(rt; out.taken(), text, "at fetch {call}");
    }
    Ok(())
}

#[test]
fn a_failed_put_leaves_the_front_of_a_refusal(rt: HostRuntime) -> Result<(), Fail> {
    let alloc = rt.alloc();
    let words = words_of(alloc, &[b"drive", b"\"s\""])?;
    let missing = b"missing,\"\"\"s\"\"\"\n".as_slice();
    // The row has 16 bytes, so four puts of 4 bytes at most.
    for call in 0..5usize {
        let mut shelf = MemShelf::new(alloc);
        let mut out = MemSink::new(alloc, 4);
        out.fail_at(call as u64)?;
        let finished = run(&rt, alloc, &words, &mut shelf, &mut out, &OpenGate);
        let want = if call < 4 { 8 } else { 3 };
        assert_eq!(rt; finished.status.number(), want, "at put {call}");
        assert!(rt; is_nothing(&finished.shown), "at put {call}");
        assert_eq!(rt;
            out.taken(),
            &missing[..(4 * call).min(16)],
            "at put {call}"
        );
    }
    Ok(())
}
