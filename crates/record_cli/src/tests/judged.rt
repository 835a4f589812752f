// Whole runs of `check`. The expected rows are worked by hand from the model and the formats.
use super::{repeated, run_at_once, words_of};
use crate::status::Status;
use ho_base::Word;
use ho_io::{FreeShelf, FreeSink, MemShelf, MemSink};
use std::alloc::Global;
use std::test::Fail;

const SCRIPT: &[u8] = b"queue,2,2\n0,enq,7\n1,deq\n";

const HISTORY: &[u8] = b"0,0,enq,7,done\n1,1,deq,,item,7\n";

// Runs `check s h` over these files.
pub(super) fn check(
    alloc: Global,
    script: &[u8],
    history: &[u8],
) -> Result<(Status, Vec<u8>), Fail> {
    let words = words_of(alloc, &[b"check", b"s", b"h"])?;
    let mut shelf = FreeShelf::new(alloc);
    shelf.add(Word::new(alloc, b"s")?, script)?;
    shelf.add(Word::new(alloc, b"h")?, history)?;
    let mut out = FreeSink::new(alloc, 7);
    let status = run_at_once(alloc, &words, &mut shelf, &mut out);
    Ok((status, out.taken().to_vec(alloc)?))
}

#[test]
fn histories_are_judged_beside_their_scripts(rt: HostRuntime) -> Result<(), Fail> {
    let table: [(&[u8], &[u8], Status, &[u8]); 14] = [
        (SCRIPT, HISTORY, Status::Done, b"legal,2\n"),
        (
            SCRIPT,
            b"0,1,deq,,item,7\n1,0,enq,7,done\n",
            Status::Ended,
            b"illegal,0\n",
        ),
        (SCRIPT, b"0,0,enq,7,done\n", Status::Ended, b"lacking,1,0\n"),
        (SCRIPT, b"", Status::Ended, b"lacking,0,0\n"),
        (b"bag\n", b"", Status::Done, b"legal,0\n"),
        (
            b"\"queue\",2,\"2\"\r\n0,\"enq\",7\r\n1,deq,\r\n",
            b"0,0,enq,7,done\r\n1,1,deq,\"\",item,7\r\n",
            Status::Done,
            b"legal,2\n",
        ),
        (b"queue,2,3\n", b"", Status::SpecRefused, b"spec,s,0,2\n"),
        (b"", b"", Status::SpecRefused, b"spec,s,0,1\n"),
        (
            b"queue,2,2\n0,enq,000000000000000000007\n",
            b"",
            Status::SpecRefused,
            b"spec,s,1,5\n",
        ),
        (
            b"queue,2,2\n0,enq,7\n",
            b"0,0,enq,7\n",
            Status::SpecRefused,
            b"spec,h,0,7\n",
        ),
        (
            b"queue,2,2\n0,enq,7\n",
            b"0,0,enq,7,maybe\n",
            Status::SpecRefused,
            b"spec,h,0,8\n",
        ),
        (
            b"queue,2,2\n0,enq,7\n",
            b"0,0,enq,7,done\n1,16,deq,,empty\n",
            Status::SpecRefused,
            b"spec,h,1,3\n",
        ),
        (
            b"queue,2,2\n0,enq,7\n",
            b"0,0,fly,,done\n",
            Status::SpecRefused,
            b"spec,h,0,4\n",
        ),
        (
            b"queue,2,2\n0,enq,7\n",
            b"0,0,deq,7,empty\n",
            Status::SpecRefused,
            b"spec,h,0,5\n",
        ),
    ];
    for (script, history, status, text) in table {
        let (answer, taken) = check(rt.alloc(), script, history)?;
        assert_eq!(rt; answer, status, "{script:?} {history:?}");
        assert_eq!(rt; taken.as_slice(), text, "{script:?} {history:?}");
    }
    Ok(())
}

#[test]
fn fields_have_20_digits_at_most_and_may_stand_in_quotes(rt: HostRuntime) -> Result<(), Fail> {
    let script = b"queue,2,2\n0,enq,7\n0,deq\n";
    let table: [(&[u8], Status, &[u8]); 9] = [
        (
            b"00000000000000000000,0,enq,00000000000000000007,done\n1,0,deq,,item,00000000000000000007\n",
            Status::Done,
            b"legal,2\n",
        ),
        (
            b"000000000000000000000,0,enq,7,done\n",
            Status::SpecRefused,
            b"spec,h,0,7\n",
        ),
        (
            b"0,000000000000000000000,enq,7,done\n",
            Status::SpecRefused,
            b"spec,h,0,3\n",
        ),
        (
            b"0,0,enq,000000000000000000007,done\n",
            Status::SpecRefused,
            b"spec,h,0,5\n",
        ),
        (
            b"0,0,enq,7,done\n1,0,deq,,item,000000000000000000007\n",
            Status::SpecRefused,
            b"spec,h,1,8\n",
        ),
        (
            b"0,0,enq,7,done\r1,0,deq,,\"item\",\"7\"\r",
            Status::Done,
            b"legal,2\n",
        ),
        (
            b"0,0,enq,7,\"done\r\"\n",
            Status::SpecRefused,
            b"spec,h,0,8\n",
        ),
        (
            b"0,0,enq,7,\"do\"\"ne\"\n",
            Status::SpecRefused,
            b"spec,h,0,8\n",
        ),
        (b"\r\n\n\r", Status::Ended, b"lacking,0,0\n"),
    ];
    for (history, status, text) in table {
        let (answer, taken) = check(rt.alloc(), script, history)?;
        assert_eq!(rt; answer, status, "{history:?}");
        assert_eq!(rt; taken.as_slice(), text, "{history:?}");
    }
    Ok(())
}

#[test]
fn scripts_and_histories_past_a_limit_are_named(rt: HostRuntime) -> Result<(), Fail> {
    let alloc = rt.alloc();
    let rows = repeated(alloc, b"queue,2,2\n", b"0,deq\n", 20_000)?;
    let (status, _) = check(alloc, &rows, b"")?;
    assert_eq!(rt; status, Status::Ended, "a script of 20,000 rows");
    let rows = repeated(alloc, &rows, b"0,deq\n", 1)?;
    let (status, text) = check(alloc, &rows, b"")?;
    assert_eq!(rt; status, Status::TooLarge);
    assert_eq!(rt; text.as_slice(), b"large,s\n".as_slice());

    let snaps = repeated(alloc, b"queue,2,2\n", b"0,snap\n", 100)?;
    let (status, _) = check(alloc, &snaps, b"")?;
    assert_eq!(rt; status, Status::Ended, "a script of 100 snapshots");
    let snaps = repeated(alloc, &snaps, b"0,snap\n", 1)?;
    let (status, text) = check(alloc, &snaps, b"")?;
    assert_eq!(rt; status, Status::SpecRefused);
    assert_eq!(rt; text.as_slice(), b"spec,s,101,6\n".as_slice());

    let mut script = b"bag\n".to_vec(alloc)?;
    script.resize(4_194_304, b'\n')?;
    let (status, _) = check(alloc, &script, b"")?;
    assert_eq!(rt; status, Status::Done, "a script of 4,194,304 bytes");
    script.push(b'\n')?;
    let (status, text) = check(alloc, &script, b"")?;
    assert_eq!(rt; status, Status::TooLarge);
    assert_eq!(rt; text.as_slice(), b"large,s\n".as_slice());
    Ok(())
}

#[test]
fn a_failed_fetch_of_either_file_writes_nothing(rt: HostRuntime) -> Result<(), Fail> {
    let alloc = rt.alloc();
    let words = words_of(alloc, &[b"check", b"s", b"h"])?;
    // Each file takes one fetch for its bytes and one that finds its end.
    for call in 0..5 {
        let mut shelf = MemShelf::new(alloc);
        shelf.add(Word::new(alloc, b"s")?, SCRIPT)?;
        shelf.add(Word::new(alloc, b"h")?, HISTORY)?;
        shelf.fail_at(call)?;
        let mut out = FreeSink::new(alloc, 64);
        let status = run_at_once(alloc, &words, &mut shelf, &mut out);
        let (want, text) = if call < 4 {
            (Status::ReadFault, b"".as_slice())
        } else {
            (Status::Done, b"legal,2\n".as_slice())
        };
        assert_eq!(rt; status, want, "at fetch {call}");
        assert_eq!(rt; out.taken(), text, "at fetch {call}");
    }
    Ok(())
}

#[test]
fn a_failed_put_leaves_the_front_of_the_verdict(rt: HostRuntime) -> Result<(), Fail> {
    let alloc = rt.alloc();
    let words = words_of(alloc, &[b"check", b"s", b"h"])?;
    let verdict = b"legal,2\n".as_slice();
    // The row has 8 bytes, so three puts of 3 bytes at most.
    for call in 0..4usize {
        let mut shelf = FreeShelf::new(alloc);
        shelf.add(Word::new(alloc, b"s")?, SCRIPT)?;
        shelf.add(Word::new(alloc, b"h")?, HISTORY)?;
        let mut out = MemSink::new(alloc, 3);
        out.fail_at(call as u64)?;
        let status = run_at_once(alloc, &words, &mut shelf, &mut out);
        let want = if call < 3 {
            Status::WriteFault
        } else {
            Status::Done
        };
        assert_eq!(rt; status, want, "at put {call}");
        assert_eq!(rt; out.taken(), &verdict[..(3 * call).min(8)], "at put {call}");
    }
    Ok(())
}

#[test]
fn the_script_is_judged_before_the_history_is_fetched(rt: HostRuntime) -> Result<(), Fail> {
    let alloc = rt.alloc();
    let words = words_of(alloc, &[b"check", b"s", b"h"])?;
    let table: [(&[(&[u8], &[u8])], Status, &[u8]); 3] = [
        (&[(b"h", HISTORY)], Status::Missing, b"missing,s\n"),
        (&[(b"s", SCRIPT)], Status::Missing, b"missing,h\n"),
        (&[(b"s", b"stack\n")], Status::SpecRefused, b"spec,s,0,2\n"),
    ];
    for (files, status, text) in table {
        let mut shelf = FreeShelf::new(alloc);
        for (name, bytes) in files {
            shelf.add(Word::new(alloc, name)?, bytes)?;
        }
        let mut out = FreeSink::new(alloc, 64);
        assert_eq!(rt; run_at_once(alloc, &words, &mut shelf, &mut out), status);
        assert_eq!(rt; out.taken(), text);
    }
    Ok(())
}
