// Runs with joints that drop, under pressure: each report is lawful beside the one-thread text.
use super::crews::{numbered, pipeline_of, run_by};
use super::plain;
use crate::status::Status;
use ho_base::word_number;
use ho_io::OpenGate;
use std::alloc::Global;
use std::test::Fail;

const MODES: [&str; 3] = ["dropnewest", "dropoldest", "dropwrite"];

// The number in a field of a row, counted from 0.
fn number_at(row: &[u8], field: usize) -> Option<u64> {
    word_number(row.split(|byte| *byte == b',').nth(field)?)
}

// The first row that begins with a word.
fn row_of<'t>(text: &'t [u8], word: &[u8]) -> &'t [u8] {
    text.split(|byte| *byte == b'\n')
        .find(|row| row.starts_with(word))
        .unwrap_or(b"")
}

// Marks the records of the rows that begin with a word, and counts them: none where one is not among those
// that were fed, or has been told of before.
fn tell(text: &[u8], word: &[u8], told: &mut [bool]) -> Option<u64> {
    let mut rows: u64 = 0;
    for row in text.split(|byte| *byte == b'\n') {
        if row.starts_with(word) {
            let number = usize::try_from(number_at(row, 1)?).ok()?;
            let is_told = told.get_mut(number)?;
            if *is_told {
                return None;
            }
            *is_told = true;
            rows = rows.saturating_add(1);
        }
    }
    Some(rows)
}

// Whether each record of so many stands in one row at most, and the rest was filtered: the counts are those
// of the rows, and add up.
fn adds_up(alloc: Global, text: &[u8], fed: usize) -> Result<bool, Fail> {
    let mut told = Vec::new(alloc);
    told.resize(fed, false)?;
    let results = tell(text, b"result,", &mut told);
    let refused = tell(text, b"refused,", &mut told);
    let dropped = tell(text, b"dropped,", &mut told);
    let counts = row_of(text, b"counts,");
    let filtered = told.iter().filter(|is_told| !**is_told).count() as u64;
    Ok(
        number_at(counts, 1) == Some(fed as u64)
            && results.is_some()
            && number_at(counts, 2) == results
            && refused.is_some()
            && number_at(counts, 3) == refused
            && number_at(counts, 4) == Some(filtered)
            && dropped.is_some()
            && number_at(counts, 5) == dropped,
    )
}

// Whether what was not dropped has the rows that it has in the one-thread text, in their order.
fn keeps_rows(text: &[u8], one_thread: &[u8]) -> bool {
    let mut rows = one_thread.split(|byte| *byte == b'\n');
    for row in text.split(|byte| *byte == b'\n') {
        let is_kept = row.starts_with(b"result,") || row.starts_with(b"refused,");
        if is_kept && !rows.any(|other| other == row) {
            return false;
        }
    }
    true
}

#[test]
fn reports_under_pressure_are_lawful(rt: HostRuntime) -> Result<(), Fail> {
    let alloc = rt.alloc();
    let records = numbered(alloc, 600)?;
    for mode in MODES {
        for capacity in [1, 2, 5] {
            let joint = format!(in alloc; "{mode} {capacity}")?;
            let pipe = pipeline_of(alloc, 4, joint.as_str())?;
            let (_, one_thread) = plain(alloc, &pipe, &records)?;
            for workers in [1, 3, 16] {
                let files = (pipe.as_slice(), records.as_slice());
                let (status, text) = run_by(&rt, alloc, files, workers, &OpenGate)?;
                assert_eq!(rt; status, Status::Done, "{joint}, {workers} workers");
                assert!(rt; adds_up(alloc, &text, 600)?, "{joint}, {workers} workers");
                assert!(rt;
                    keeps_rows(&text, &one_thread),
                    "{joint}, {workers} workers"
                );
                assert_eq!(rt;
                    row_of(&text, b"ending,"),
                    b"ending,done".as_slice(),
                    "{joint}"
                );
            }
        }
    }
    Ok(())
}

#[test]
fn joints_with_room_for_all_drop_nothing(rt: HostRuntime) -> Result<(), Fail> {
    let alloc = rt.alloc();
    let records = numbered(alloc, 300)?;
    for mode in MODES {
        for capacity in [300, 65_536] {
            let joint = format!(in alloc; "{mode} {capacity}")?;
            let pipe = pipeline_of(alloc, 8, joint.as_str())?;
            let (_, one_thread) = plain(alloc, &pipe, &records)?;
            let files = (pipe.as_slice(), records.as_slice());
            let (status, text) = run_by(&rt, alloc, files, 4, &OpenGate)?;
            assert_eq!(rt; status, Status::Done, "{joint}");
            assert!(rt; adds_up(alloc, &text, 300)?, "{joint}");
            assert!(rt; keeps_rows(&text, &one_thread), "{joint}");
            assert_eq!(rt; number_at(row_of(&text, b"counts,"), 5), Some(0), "{joint}");
        }
    }
    Ok(())
}
