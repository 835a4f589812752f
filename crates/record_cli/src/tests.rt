// Whole runs: words and files in, status and bytes out. The expected bytes are worked by hand from
// the formats.
mod crews;
mod driven;
mod dropping;
mod judged;
mod piped;
mod telling;

use crate::commands::waits;
use crate::run::run;
use crate::status::Status;
use crate::top::run_plain;
use ho_base::{NoMemory, Word};
use ho_io::{DiskShelf, FreeShelf, FreeSink, MemShelf, MemSink, OpenGate, Shelf, Sink};
use std::alloc::Global;
use std::test::Fail;

const PIPELINE: &[u8] = b"stage keep 1 ge 10\nstage add 1 5\n";

const ONE_STAGE: &[u8] = b"stage keep 0 ge 0\n";

const RECORDS: &[u8] = b"ann,12\nbob,x\ncyd,7\n";

const TEXT: &[u8] = b"result,0,ann,17\nrefused,1,1,2\ncounts,3,1,1,1\nending,done\n";

// The words of a command line.
fn words_of(alloc: Global, words: &[&[u8]]) -> Result<Vec<Word>, Fail> {
    let mut made = Vec::new(alloc);
    for word in words {
        made.push(Word::new(alloc, word)?)?;
    }
    Ok(made)
}

// A shelf with the two files p and f.
fn shelf_of(alloc: Global, pipe: &[u8], records: &[u8]) -> Result<FreeShelf, NoMemory> {
    let mut shelf = FreeShelf::new(alloc);
    shelf.add(Word::new(alloc, b"p")?, pipe)?;
    shelf.add(Word::new(alloc, b"f")?, records)?;
    Ok(shelf)
}

// A shelf with these files, of whose fetches one fails.
fn failing_shelf(alloc: Global, files: &[(&[u8], &[u8])], call: u64) -> Result<MemShelf, NoMemory> {
    let mut shelf = MemShelf::new(alloc);
    for (name, bytes) in files {
        shelf.add(Word::new(alloc, name)?, bytes)?;
    }
    shelf.fail_at(call)?;
    Ok(shelf)
}

// Runs a command that waits for no other call. The others are not asked for here.
fn run_at_once<S: Shelf, K: Sink>(
    alloc: Global,
    words: &[Word],
    shelf: &mut S,
    out: &mut K,
) -> Status {
    // for the proof: `run_plain` asks that the command does not wait
    if waits(words) {
        return Status::Usage;
    }
    run_plain(alloc, words, shelf, out)
}

// The text, and this row so many times behind it.
fn repeated(alloc: Global, text: &[u8], row: &[u8], times: usize) -> Result<Vec<u8>, Fail> {
    let mut all = text.to_vec(alloc)?;
    for _ in 0..times {
        all.extend_from_slice(row)?;
    }
    Ok(all)
}

// Runs `plain p f` over these files, and writes in pieces of a few bytes.
fn plain(alloc: Global, pipe: &[u8], records: &[u8]) -> Result<(Status, Vec<u8>), Fail> {
    let words = words_of(alloc, &[b"plain", b"p", b"f"])?;
    let mut shelf = shelf_of(alloc, pipe, records)?;
    let mut out = FreeSink::new(alloc, 7);
    let status = run_at_once(alloc, &words, &mut shelf, &mut out);
    Ok((status, out.taken().to_vec(alloc)?))
}

#[test]
fn pipelines_and_records_give_their_text(rt: HostRuntime) -> Result<(), Fail> {
    let table: [(&[u8], &[u8], Status, &[u8]); 15] = [
        (
            ONE_STAGE,
            b"",
            Status::Done,
            b"counts,0,0,0,0\nending,done\n",
        ),
        (PIPELINE, RECORDS, Status::Done, TEXT),
        (
            b"guard 0 ann 9\nstage keep 1 ge 10\nstage add 1 5\n",
            RECORDS,
            Status::Ended,
            b"counts,0,0,0,0\nending,guard,9\n",
        ),
        (
            b"stage add 1 5\nguard 0 bob 65535",
            RECORDS,
            Status::Ended,
            b"result,0,ann,17\ncounts,1,1,0,0\nending,guard,65535\n",
        ),
        (
            b"stage add 1 -1\n",
            b"\"a,b\",1\n",
            Status::Done,
            b"result,0,\"a,b\",0\ncounts,1,1,0,0\nending,done\n",
        ),
        (
            b"stage add 0 1\n",
            b"9223372036854775807\n",
            Status::Done,
            b"refused,0,1,3\ncounts,1,0,1,0\nending,done\n",
        ),
        (
            b"stage sum 0 1\nstage cat 2 0\nstage copy 3\nstage mul 2 -2\n",
            b"4,6\n",
            Status::Done,
            b"result,0,4,6,-20,104,104\ncounts,1,1,0,0\nending,done\n",
        ),
        (
            b"# orders above 100, with 20 added\njoint wait 64\nstage keep 2 gt 100\njoint wait 64\nstage add 2 20\nstage cat 0 1\n",
            b"1001,\"Miller, Ann\",250\r\n1002,Bob,80\r\n1003,\"O\"\"Neil\",n/a\r\n",
            Status::Done,
            b"result,0,1001,\"Miller, Ann\",270,\"1001Miller, Ann\"\nrefused,2,1,2\ncounts,3,1,1,1\nending,done\n",
        ),
        (
            b"stage match 0 b\nstage cut 0\n",
            b"a,1\nb,\"say \"\"yes\"\"\"\n",
            Status::Done,
            b"result,1,\"say \"\"yes\"\"\"\ncounts,2,1,0,1\nending,done\n",
        ),
        (
            b"stage keep 0 ge 99999999999999999999\n",
            b"",
            Status::SpecRefused,
            b"spec,p,0,4\n",
        ),
        (
            b"joint wait 0\nstage cut 0\n",
            b"",
            Status::SpecRefused,
            b"spec,p,0,4\n",
        ),
        (b"", b"", Status::SpecRefused, b"spec,p,0,6\n"),
        // a pipeline that was cut off, in the middle of a line and before its first stage
        (
            b"# orders above 100, with 20 added\njoint wait 64\nstage ke",
            b"",
            Status::SpecRefused,
            b"spec,p,2,3\n",
        ),
        (
            b"# orders above 100, with 20 added\njoint wait 64\n",
            b"",
            Status::SpecRefused,
            b"spec,p,2,6\n",
        ),
        (
            b"stage cut 0\n",
            b"a,b\nc\n",
            Status::InputRefused,
            b"input,1,1\n",
        ),
    ];
    for (pipe, records, status, text) in table {
        let (answer, taken) = plain(rt.alloc(), pipe, records)?;
        assert_eq!(rt; answer, status, "{pipe:?}");
        assert_eq!(rt; taken.as_slice(), text, "{pipe:?}");
    }
    Ok(())
}

#[test]
fn words_have_a_form_or_are_refused(rt: HostRuntime) -> Result<(), Fail> {
    let alloc = rt.alloc();
    let table: [(&[&[u8]], Status, &[u8], bool); 20] = [
        (&[], Status::Usage, b"usage\n", false),
        (&[b"plain", b"p"], Status::Usage, b"usage\n", false),
        (
            &[b"plain", b"p", b"f", b"f"],
            Status::Usage,
            b"usage\n",
            false,
        ),
        (&[b"plain", b"", b"f"], Status::Usage, b"usage\n", false),
        (&[b"plain", b"p", b""], Status::Usage, b"usage\n", false),
        (&[b"Plain", b"p", b"f"], Status::Usage, b"usage\n", false),
        (
            &[b"plain", b"g", b"f"],
            Status::Missing,
            b"missing,g\n",
            false,
        ),
        (
            &[b"plain", b"p", b"g,h"],
            Status::Missing,
            b"missing,\"g,h\"\n",
            false,
        ),
        (
            &[b"plain", b"p", b"-f"],
            Status::Missing,
            b"missing,-f\n",
            false,
        ),
        (
            &[b"run", b"p", b"f", b"17"],
            Status::Usage,
            b"usage\n",
            false,
        ),
        (
            &[b"run", b"p", b"f", b"0"],
            Status::Usage,
            b"usage\n",
            false,
        ),
        (&[b"run", b"p", b"f", b"16"], Status::Done, TEXT, true),
        (
            &[b"run", b"p", b"f", b"000000000000000000001"],
            Status::Usage,
            b"usage\n",
            false,
        ),
        (&[b"drive", b"s"], Status::Missing, b"missing,s\n", true),
        (&[b"drive", b""], Status::Usage, b"usage\n", false),
        (
            &[b"check", b"s", b"h"],
            Status::Missing,
            b"missing,s\n",
            false,
        ),
        (
            &[b"made", b"3", b"1", b"2"],
            Status::Done,
            b"counts,3,2,0,1\nsum,4818\nending,done\n",
            true,
        ),
        (
            &[b"made", b"0", b"2147483647", b"16"],
            Status::Done,
            b"counts,0,0,0,0\nsum,0\nending,done\n",
            true,
        ),
        (
            &[b"made", b"200001", b"1", b"2"],
            Status::Usage,
            b"usage\n",
            false,
        ),
        (
            &[b"made", b"3", b"2147483648", b"2"],
            Status::Usage,
            b"usage\n",
            false,
        ),
    ];
    for (words, status, text, waiting) in table {
        let words = words_of(alloc, words)?;
        let mut shelf = shelf_of(alloc, PIPELINE, RECORDS)?;
        let mut out = FreeSink::new(alloc, 64);
        assert_eq!(rt; waits(&words), waiting);
        let finished = run(&rt, alloc, &words, &mut shelf, &mut out, &OpenGate);
        assert_eq!(rt; finished.status, status);
        assert_eq!(rt; out.taken(), text);
    }
    Ok(())
}

#[test]
fn what_is_too_large_is_named(rt: HostRuntime) -> Result<(), Fail> {
    let alloc = rt.alloc();
    let mut comment = Vec::new(alloc);
    comment.resize(65_523, b'#')?;
    comment.extend_from_slice(b"\nstage cut 0\n")?;
    let (status, _) = plain(alloc, &comment, b"a\n")?;
    assert_eq!(rt; status, Status::Done, "a pipeline of 65,536 bytes");
    comment.insert(0, b'#')?;
    let (status, text) = plain(alloc, &comment, b"a\n")?;
    assert_eq!(rt; status, Status::TooLarge);
    assert_eq!(rt; text.as_slice(), b"large,p\n".as_slice());

    let mut records = Vec::new(alloc);
    records.resize(16_777_216, b'\n')?;
    let (status, _) = plain(alloc, PIPELINE, &records)?;
    assert_eq!(rt; status, Status::Done, "empty lines are no rows");
    records.push(b'\n')?;
    let (status, text) = plain(alloc, PIPELINE, &records)?;
    assert_eq!(rt; status, Status::TooLarge);
    assert_eq!(rt; text.as_slice(), b"large,f\n".as_slice());
    Ok(())
}

#[test]
fn a_failed_fetch_writes_nothing(rt: HostRuntime) -> Result<(), Fail> {
    let alloc = rt.alloc();
    let words = words_of(alloc, &[b"plain", b"p", b"f"])?;
    // Each file takes one fetch for its bytes and one that finds its end, so four in all.
    for call in 0..8 {
        let mut shelf = failing_shelf(alloc, &[(b"p", PIPELINE), (b"f", RECORDS)], call)?;
        let mut out = FreeSink::new(alloc, 64);
        let status = run_at_once(alloc, &words, &mut shelf, &mut out);
        let (want, text) = if call < 4 {
            (Status::ReadFault, b"".as_slice())
        } else {
            (Status::Done, TEXT)
        };
        assert_eq!(rt; status, want, "at fetch {call}");
        assert_eq!(rt; out.taken(), text, "at fetch {call}");
    }
    Ok(())
}

#[test]
fn the_first_file_is_judged_before_the_second_is_fetched(rt: HostRuntime) -> Result<(), Fail> {
    let alloc = rt.alloc();
    let words = words_of(alloc, &[b"plain", b"p", b"f"])?;
    let table: [(&[(&[u8], &[u8])], u64, Status, &[u8]); 5] = [
        (&[(b"p", ONE_STAGE), (b"f", b"")], 0, Status::ReadFault, b""),
        (&[(b"f", RECORDS)], 0, Status::Missing, b"missing,p\n"),
        (
            &[(b"p", b"stage cut\n"), (b"f", RECORDS)],
            2,
            Status::SpecRefused,
            b"spec,p,0,3\n",
        ),
        (&[(b"p", PIPELINE)], 2, Status::Missing, b"missing,f\n"),
        (&[(b"p", PIPELINE)], 9, Status::Missing, b"missing,f\n"),
    ];
    for (files, call, status, text) in table {
        let mut shelf = failing_shelf(alloc, files, call)?;
        let mut out = FreeSink::new(alloc, 64);
        assert_eq!(rt;
            run_at_once(alloc, &words, &mut shelf, &mut out),
            status,
            "at fetch {call}"
        );
        assert_eq!(rt; out.taken(), text, "at fetch {call}");
    }
    Ok(())
}

#[test]
fn a_second_put_that_fails_leaves_the_first_piece(rt: HostRuntime) -> Result<(), Fail> {
    let alloc = rt.alloc();
    let words = words_of(alloc, &[b"plain", b"p", b"f"])?;
    let mut shelf = shelf_of(alloc, ONE_STAGE, b"")?;
    let mut out = MemSink::new(alloc, 8);
    out.fail_at(1)?;
    let status = run_at_once(alloc, &words, &mut shelf, &mut out);
    assert_eq!(rt; status, Status::WriteFault);
    assert_eq!(rt; out.taken(), b"counts,0".as_slice());
    Ok(())
}

#[test]
fn a_failed_put_leaves_the_front_of_the_text(rt: HostRuntime) -> Result<(), Fail> {
    let alloc = rt.alloc();
    let words = words_of(alloc, &[b"plain", b"p", b"f"])?;
    // The text has 57 bytes, so twelve puts of 5 bytes at most.
    for call in 0..31usize {
        let mut shelf = shelf_of(alloc, PIPELINE, RECORDS)?;
        let mut out = MemSink::new(alloc, 5);
        out.fail_at(call as u64)?;
        let status = run_at_once(alloc, &words, &mut shelf, &mut out);
        let want = if call < 12 {
            Status::WriteFault
        } else {
            Status::Done
        };
        assert_eq!(rt; status, want, "at put {call}");
        assert_eq!(rt; out.taken(), &TEXT[..(5 * call).min(57)], "at put {call}");
    }
    Ok(())
}

#[test]
fn statuses_have_their_numbers(rt: HostRuntime) {
    let statuses = [
        Status::Done,
        Status::Ended,
        Status::Usage,
        Status::Missing,
        Status::SpecRefused,
        Status::InputRefused,
        Status::TooLarge,
        Status::ReadFault,
        Status::WriteFault,
        Status::NoMemory,
    ];
    for (number, status) in statuses.iter().enumerate() {
        assert_eq!(rt; usize::from(status.number()), number);
    }
}
