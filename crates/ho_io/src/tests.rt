use super::*;
use ho_base::{NoMemory, Word};
use std::alloc::Global;
use std::test::Fail;

const TEXT: &[u8] = b"counts,0,0,0,0\n";

// A shelf with the text under the name f, of whose fetches one fails.
fn shelf_failing_at(alloc: Global, call: u64) -> Result<MemShelf, NoMemory> {
    let mut shelf = MemShelf::new(alloc);
    shelf.add(Word::new(alloc, b"f")?, b"an older file")?;
    shelf.add(Word::new(alloc, b"f")?, TEXT)?;
    shelf.fail_at(call)?;
    Ok(shelf)
}

// What is loaded, as a word and the bytes if there are any.
fn shown(loaded: &Loaded) -> (&str, &[u8]) {
    match loaded {
        Loaded::Whole(bytes) => ("whole", bytes),
        Loaded::TooLarge => ("too large", b""),
        Loaded::Missing => ("missing", b""),
        Loaded::Failed => ("failed", b""),
        Loaded::NoMemory => ("no memory", b""),
    }
}

#[test]
fn a_file_is_read_whole_up_to_its_limit(rt: HostRuntime) -> Result<(), Fail> {
    let alloc = rt.alloc();
    let mut shelf = FreeShelf::new(alloc);
    shelf.add(Word::new(alloc, b"f")?, TEXT)?;
    shelf.add(Word::new(alloc, b"empty")?, b"")?;
    let table = [
        ("f", 15, "whole", TEXT),
        ("f", 100_000, "whole", TEXT),
        ("f", 14, "too large", b"".as_slice()),
        ("f", 0, "too large", b"".as_slice()),
        ("empty", 0, "whole", b"".as_slice()),
        ("g", 15, "missing", b"".as_slice()),
    ];
    for (name, limit, word, bytes) in table {
        let word_of_name = Word::new(alloc, name.as_bytes())?;
        let loaded = fetch_whole(alloc, &mut shelf, &word_of_name, limit);
        let (answer, read) = shown(&loaded);
        assert_eq!(rt; answer, word, "{name} at {limit}");
        assert_eq!(rt; read, bytes, "{name} at {limit}");
    }
    Ok(())
}

#[test]
fn a_fetch_fails_where_it_was_told_to(rt: HostRuntime) -> Result<(), Fail> {
    let alloc = rt.alloc();
    let name = Word::new(alloc, b"f")?;
    // The first fetch takes the text, and the second finds its end.
    for (call, word) in [(0, "failed"), (1, "failed"), (2, "whole")] {
        let mut shelf = shelf_failing_at(alloc, call)?;
        let loaded = fetch_whole(alloc, &mut shelf, &name, 100);
        let (answer, _) = shown(&loaded);
        assert_eq!(rt; answer, word, "at call {call}");
    }
    // A name that is not there is missing, also at a call that is to fail, and that call is counted.
    let other = Word::new(alloc, b"g")?;
    for (call, word) in [(0, "whole"), (1, "failed"), (2, "failed")] {
        let mut shelf = shelf_failing_at(alloc, call)?;
        assert!(rt; matches!(fetch_whole(alloc, &mut shelf, &other, 100), Loaded::Missing));
        let loaded = fetch_whole(alloc, &mut shelf, &name, 100);
        let (answer, _) = shown(&loaded);
        assert_eq!(rt; answer, word, "at call {call}");
    }
    Ok(())
}

#[test]
fn a_put_fails_where_it_was_told_to(rt: HostRuntime) -> Result<(), Fail> {
    let alloc = rt.alloc();
    let table = [
        (0, Written::Failed, b"".as_slice()),
        (1, Written::Failed, b"counts,0".as_slice()),
        (2, Written::Whole, TEXT),
    ];
    for (call, written, taken) in table {
        let mut sink = MemSink::new(alloc, 8);
        sink.fail_at(call)?;
        assert!(rt; sink.reserve(TEXT.len()).is_ok());
        assert_eq!(rt; put_whole(&mut sink, TEXT), written, "at call {call}");
        assert_eq!(rt; sink.taken(), taken, "at call {call}");
    }
    Ok(())
}

#[test]
fn a_text_is_put_whole(rt: HostRuntime) {
    for largest in [1, 7, 8, 100] {
        let mut sink = FreeSink::new(rt.alloc(), largest);
        assert!(rt; sink.reserve(TEXT.len()).is_ok());
        assert_eq!(rt; put_whole(&mut sink, TEXT), Written::Whole);
        assert_eq!(rt; sink.taken(), TEXT);
    }
}

#[test]
fn an_open_gate_stops_nobody_and_a_terminal_has_room(rt: HostRuntime) {
    OpenGate.at(&rt, 0, 0);
    assert!(rt; TerminalSink::new(&rt).reserve(TEXT.len()).is_ok());
}

#[test]
fn a_name_that_is_not_there_is_missing_on_the_disk(rt: HostRuntime) -> Result<(), Fail> {
    let name = Word::new(rt.alloc(), b"no such file is here")?;
    let mut shelf = DiskShelf::new(&rt);
    assert!(rt;
        matches!(
            fetch_whole(rt.alloc(), &mut shelf, &name, 10),
            Loaded::Missing
        )
    );
    let folder = Word::new(rt.alloc(), b"/")?;
    assert!(rt;
        matches!(
            fetch_whole(rt.alloc(), &mut shelf, &folder, 10),
            Loaded::Failed
        )
    );
    Ok(())
}
