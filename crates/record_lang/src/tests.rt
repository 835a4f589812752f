use super::*;
use ho_base::{Fault, Item, NoMemory};
use std::alloc::Global;
use std::test::Fail;
use std::thread::join;

// The text of a pipeline on a record file.
fn text_of(alloc: Global, pipeline: &[u8], file: &[u8]) -> Result<Vec<u8>, Fail> {
    let pipeline = parse_pipeline(alloc, pipeline)?;
    let records = read_records(alloc, file)?;
    let text = one_thread_text(alloc, &pipeline, records)?;
    Ok(text.bytes().to_vec(alloc)?)
}

const KEEP_AND_ADD: &[u8] = b"stage keep 1 ge 10\nstage add 1 5\n";

const ORDERS: &[u8] = b"1001,\"Miller, Ann\",250\r\n1002,Bob,80\r\n1003,\"O\"\"Neil\",n/a\r\n";

const ABOVE_A_HUNDRED: &[u8] =
    b"# orders above 100, with 20 added\njoint wait 64\nstage keep 2 gt 100\njoint wait 64\nstage add 2 20\nstage cat 0 1\n";

#[test]
fn whole_texts(rt: HostRuntime) -> Result<(), Fail> {
    for (pipeline, file, want) in [
        (
            b"stage keep 0 ge 0\n".as_slice(),
            b"".as_slice(),
            b"counts,0,0,0,0\nending,done\n".as_slice(),
        ),
        (
            KEEP_AND_ADD,
            b"ann,12\nbob,x\ncyd,7\n",
            b"result,0,ann,17\nrefused,1,1,2\ncounts,3,1,1,1\nending,done\n",
        ),
        (
            b"stage add 1 -1\n",
            b"\"a,b\",1\n",
            b"result,0,\"a,b\",0\ncounts,1,1,0,0\nending,done\n",
        ),
        (
            b"stage add 0 1\n",
            b"9223372036854775807\n",
            b"refused,0,1,3\ncounts,1,0,1,0\nending,done\n",
        ),
        (
            ABOVE_A_HUNDRED,
            ORDERS,
            b"result,0,1001,\"Miller, Ann\",270,\"1001Miller, Ann\"\nrefused,2,1,2\ncounts,3,1,1,1\nending,done\n",
        ),
        (
            b"stage sum 0 1\nstage cat 2 0\nstage copy 3\nstage mul 2 -2\n",
            b"4,6\n",
            b"result,0,4,6,-20,104,104\ncounts,1,1,0,0\nending,done\n",
        ),
        (
            b"stage copy 0\n",
            b"\xef\xbb\xbfa\r\n\r\n\n\"b\nc\"",
            b"result,0,a,a\nresult,1,\"b\nc\",\"b\nc\"\ncounts,2,2,0,0\nending,done\n",
        ),
    ] {
        assert_eq!(rt; text_of(rt.alloc(), pipeline, file)?.as_slice(), want);
    }
    Ok(())
}

#[test]
fn the_guard(rt: HostRuntime) -> Result<(), Fail> {
    for (guard, want) in [
        (
            b"guard 0 ann 9\nstage copy 0\n".as_slice(),
            b"counts,0,0,0,0\nending,guard,9\n".as_slice(),
        ),
        (
            b"stage cut 1\nguard 1 7 65535\n",
            b"result,0,ann\nresult,1,bob\ncounts,2,2,0,0\nending,guard,65535\n",
        ),
        (
            b"stage keep 1 lt 0\nguard 2 x 1\n",
            b"refused,1,1,2\ncounts,3,0,1,2\nending,done\n",
        ),
    ] {
        let text = text_of(rt.alloc(), guard, b"ann,12\nbob,x\ncyd,7\n")?;
        assert_eq!(rt; text.as_slice(), want);
    }
    Ok(())
}

// What one stage makes of one record: the first line of the text.
const STAGES: &[(&[u8], &[u8], &[u8])] = &[
    (b"stage keep 0 lt 0", b"-1", b"result,0,-1"),
    (b"stage keep 0 lt -1", b"-1", b"counts,1,0,0,1"),
    (b"stage keep 0 le -1", b"-1", b"result,0,-1"),
    (b"stage keep 0 le -2", b"-1", b"counts,1,0,0,1"),
    (b"stage keep 0 eq -1", b"-1", b"result,0,-1"),
    (b"stage keep 0 eq 0", b"-1", b"counts,1,0,0,1"),
    (b"stage keep 0 ge -1", b"-1", b"result,0,-1"),
    (b"stage keep 0 ge 0", b"-1", b"counts,1,0,0,1"),
    (b"stage keep 0 gt -2", b"-1", b"result,0,-1"),
    (b"stage keep 0 gt -1", b"-1", b"counts,1,0,0,1"),
    (b"stage match 1 ann", b"a,ann", b"result,0,a,ann"),
    (b"stage match 1 ann", b"a,anna", b"counts,1,0,0,1"),
    (b"stage match 1 ann", b"a,an", b"counts,1,0,0,1"),
    (b"stage sum 0 1", b"-3,1", b"result,0,-3,1,-2"),
    (b"stage cat 1 0", b"a,b", b"result,0,a,b,ba"),
    (b"stage copy 0", b"a,b", b"result,0,a,b,a"),
    (b"stage cut 0", b"a,b,c", b"result,0,b,c"),
    (b"stage cut 0", b"a", b"result,0\n"),
    (b"stage keep 1 eq 0", b"0", b"refused,0,1,1"),
    (b"stage match 1 ann", b"ann", b"refused,0,1,1"),
    (b"stage add 1 0", b"0", b"refused,0,1,1"),
    (b"stage mul 1 0", b"0", b"refused,0,1,1"),
    (b"stage sum 0 1", b"x", b"refused,0,1,1"),
    (b"stage sum 1 0", b"x", b"refused,0,1,1"),
    (b"stage cat 0 1", b"x", b"refused,0,1,1"),
    (b"stage cat 1 0", b"x", b"refused,0,1,1"),
    (b"stage copy 1", b"x", b"refused,0,1,1"),
    (b"stage cut 1", b"x", b"refused,0,1,1"),
    (b"stage keep 0 eq 0", b"x", b"refused,0,1,2"),
    (b"stage mul 0 0", b"x", b"refused,0,1,2"),
    (b"stage sum 0 1", b"x,1", b"refused,0,1,2"),
    (b"stage sum 0 1", b"1,x", b"refused,0,1,2"),
    (b"stage add 0 1", b"9223372036854775807", b"refused,0,1,3"),
    (b"stage add 0 -1", b"-9223372036854775808", b"refused,0,1,3"),
    (b"stage mul 0 2", b"9223372036854775807", b"refused,0,1,3"),
    (b"stage mul 0 2", b"-9223372036854775808", b"refused,0,1,3"),
    (b"stage mul 0 -1", b"-9223372036854775808", b"refused,0,1,3"),
    (b"stage sum 0 1", b"9223372036854775807,1", b"refused,0,1,3"),
    (
        b"stage sum 0 1",
        b"-1,-9223372036854775808",
        b"refused,0,1,3",
    ),
];

// The numbers that fields hold, as a stage that adds zero writes them.
const NUMBERS: &[(&[u8], &[u8])] = &[
    (b"007", b"result,0,7\n"),
    (b"-0", b"result,0,0\n"),
    (b"-5", b"result,0,-5\n"),
    (b"9223372036854775807", b"result,0,9223372036854775807\n"),
    (b"-9223372036854775808", b"result,0,-9223372036854775808\n"),
    (b"+5", b"refused,0,1,2\n"),
    (b"-", b"refused,0,1,2\n"),
    (b"--1", b"refused,0,1,2\n"),
    (b" 5", b"refused,0,1,2\n"),
    (b"5.0", b"refused,0,1,2\n"),
    (b"\"\"", b"refused,0,1,2\n"),
    (b"9223372036854775808", b"refused,0,1,2\n"),
    (b"-9223372036854775809", b"refused,0,1,2\n"),
    (b"18446744073709551616", b"refused,0,1,2\n"),
];

#[test]
fn stages_and_numbers(rt: HostRuntime) -> Result<(), Fail> {
    for (stage, file, line) in STAGES {
        assert!(rt; text_of(rt.alloc(), stage, file)?.starts_with(line));
    }
    for (file, line) in NUMBERS {
        assert!(rt; text_of(rt.alloc(), b"stage add 0 0", file)?.starts_with(line));
    }
    Ok(())
}

// Rows of one field of this many bytes, and of this many fields of one byte.
fn rows_of(alloc: Global, bytes: usize, fields: usize) -> Result<Vec<u8>, Fail> {
    let mut file = Vec::new(alloc);
    file.resize(bytes, b'a')?;
    for _ in 1..fields {
        file.extend_from_slice(b",a")?;
    }
    Ok(file)
}

#[test]
fn a_new_record_has_at_most_4096_bytes(rt: HostRuntime) -> Result<(), Fail> {
    let alloc = rt.alloc();
    for (bytes, stage, line) in [
        (2048, b"stage copy 0".as_slice(), b"result,0,a".as_slice()),
        (2049, b"stage copy 0", b"refused,0,1,4\n"),
        (2049, b"stage cat 0 0", b"refused,0,1,4\n"),
    ] {
        let file = rows_of(alloc, bytes, 1)?;
        assert!(rt; text_of(alloc, stage, &file)?.starts_with(line));
    }
    Ok(())
}

// The first refused row of a file and its cause, or None where it is read whole.
fn refusal_of(alloc: Global, file: &[u8]) -> Result<Option<(u64, u8)>, InputFault> {
    match read_records(alloc, file) {
        Ok(_) => Ok(None),
        Err(InputFault::Refused { row, cause }) => Ok(Some((row, cause))),
        Err(fault) => Err(fault),
    }
}

#[test]
fn refused_rows(rt: HostRuntime) -> Result<(), Fail> {
    let alloc = rt.alloc();
    for (bytes, fields, want) in [
        (1, 64, None),
        (1, 65, Some((0, 2))),
        (4096, 1, None),
        (4097, 1, Some((0, 3))),
        (4033, 64, None),
        (4034, 64, Some((0, 3))),
    ] {
        let file = rows_of(alloc, bytes, fields)?;
        assert_eq!(rt; refusal_of(alloc, &file), Ok(want));
    }
    assert_eq!(rt; refusal_of(alloc, b"a,b\nc\n"), Ok(Some((1, 1))));
    Ok(())
}

#[test]
fn at_most_200_000_rows(rt: HostRuntime) -> Result<(), Fail> {
    let alloc = rt.alloc();
    let mut file = Vec::new(alloc);
    file.resize(400_000, b'\n')?;
    for i in 0..200_000 {
        file[2 * i] = b'a';
    }
    assert!(rt; read_records(alloc, &file).is_ok());
    file.extend_from_slice(b"a,b\n")?;
    let fault = read_records(alloc, &file);
    assert!(rt; matches!(&fault, Err(InputFault::TooManyRows)));
    Ok(())
}

// A record of these fields.
fn record_of(alloc: Global, number: u64, fields: &[&[u8]]) -> Result<Record, NoMemory> {
    let mut record = Record::new(alloc, number);
    for field in fields {
        record.push(Field::new(alloc, field)?)?;
    }
    Ok(record)
}

// The records of one row, `ann,12`.
fn one_record(alloc: Global) -> Result<Records, NoMemory> {
    let mut record = Record::new(alloc, 0);
    record.push(Field::new(alloc, b"ann")?)?;
    record.push(Field::new(alloc, b"12")?)?;
    let mut records = Records::new(alloc);
    records.push(record)?;
    Ok(records)
}

// Whether a record has this number and these fields.
fn is_record(record: &Record, number: u64, fields: &[&[u8]]) -> bool {
    record.number() == number
        && record.fields().len() == fields.len()
        && record
            .fields()
            .iter()
            .zip(fields)
            .all(|(field, want)| field.bytes() == *want)
}

#[test]
fn a_record_by_hand(rt: HostRuntime) -> Result<(), Fail> {
    let alloc = rt.alloc();
    assert_eq!(rt; Field::new(alloc, b"a\x00b")?.bytes(), b"a\x00b".as_slice());
    let pipeline = parse_pipeline(alloc, b"guard 0 ann 9\nstage cat 1 0\n")?;
    let records = one_record(alloc)?;
    assert!(rt; pipeline.stops(&records));
    for record in records.into_vec() {
        assert!(rt; is_record(&record, 0, &[b"ann", b"12"]));
        assert_eq!(rt; record.priority(), 0);
        assert!(rt; pipeline.meets_guard(&record));
        let outcome = apply_stage(&pipeline, 1, record);
        assert!(rt;
            matches!(&outcome, Ok(Outcome::Result(now)) if is_record(now, 0, &[b"ann", b"12", b"12ann"]))
        );
    }
    marks_tell_records();
    Ok(())
}

#[test]
fn outcomes_at_later_stages(rt: HostRuntime) -> Result<(), Fail> {
    for (pipeline, want) in [
        (
            b"stage copy 0\nstage add 1 1\n".as_slice(),
            b"result,1,7,8\nrefused,0,2,2\ncounts,2,1,1,0\nending,done\n".as_slice(),
        ),
        (
            b"stage copy 0\nstage match 1 7\nstage cut 2\nstage copy 0\n",
            b"refused,1,3,1\ncounts,2,0,1,1\nending,done\n",
        ),
    ] {
        let text = text_of(rt.alloc(), pipeline, b"x\n7\n")?;
        assert_eq!(rt; text.as_slice(), want);
    }
    stages_make_outcomes();
    Ok(())
}

// A report of a run in which joints 1 and 2 dropped a record each.
fn report_with_drops(alloc: Global) -> Result<Report, NoMemory> {
    let mut report = Report::with_drops(alloc);
    report.push(Outcome::Result(record_of(alloc, 0, &[b"a,b"])?))?;
    report.push(Outcome::Refused {
        number: 2,
        stage: 2,
        cause: 1,
    })?;
    report.push(Outcome::Filtered { number: 3 })?;
    report.push(Outcome::Result(record_of(alloc, 4, &[])?))?;
    report.push_dropped(Dropped {
        number: 5,
        joint: 1,
    })?;
    report.push_dropped(Dropped {
        number: 1,
        joint: 2,
    })?;
    Ok(report)
}

// A report of one record.
fn report_of_one(alloc: Global, outcome: Outcome) -> Result<Report, NoMemory> {
    let mut report = Report::new(alloc);
    report.push(outcome)?;
    Ok(report)
}

#[test]
fn a_report_by_hand(rt: HostRuntime) -> Result<(), Fail> {
    let alloc = rt.alloc();
    let text = report_with_drops(alloc)?.text(alloc, None)?;
    let want =
        b"result,0,\"a,b\"\nresult,4\nrefused,2,2,1\ndropped,5,1\ndropped,1,2\ncounts,6,2,1,1,2\nending,done\n";
    assert_eq!(rt; text.bytes(), want.as_slice());
    let filtered = Outcome::Filtered { number: 7 };
    assert_eq!(rt; filtered.number(), 7);
    let text = report_of_one(alloc, filtered)?.text(alloc, Fault::new(9))?;
    assert_eq!(rt;
        text.bytes(),
        b"counts,1,0,0,1\nending,guard,9\n".as_slice()
    );
    Ok(())
}

// The outcomes of records 0 and 2.
fn two_outcomes(alloc: Global) -> Result<Vec<Outcome>, NoMemory> {
    let mut outcomes = Vec::new(alloc);
    outcomes.push(Outcome::Filtered { number: 0 })?;
    outcomes.push(Outcome::Refused {
        number: 2,
        stage: 1,
        cause: 3,
    })?;
    Ok(outcomes)
}

#[test]
fn a_report_of_lists(rt: HostRuntime) -> Result<(), Fail> {
    let alloc = rt.alloc();
    let text = Report::of(alloc, two_outcomes(alloc)?).text(alloc, None)?;
    let want = b"refused,2,1,3\ncounts,2,0,1,1\nending,done\n";
    assert_eq!(rt; text.bytes(), want.as_slice());
    let dropped = vec![in alloc;
        Dropped {
            number: 1,
            joint: 2
        },
    ]?;
    let text = Report::of_drops(two_outcomes(alloc)?, dropped).text(alloc, None)?;
    let want = b"refused,2,1,3\ndropped,1,2\ncounts,3,0,1,1,1\nending,done\n";
    assert_eq!(rt; text.bytes(), want.as_slice());
    Ok(())
}

// The pipeline `keep 0 ge 500`, `add 0 5`, `mul 0 3`, with a guard.
fn pipeline_by_hand(alloc: Global) -> Result<Pipeline, Fail> {
    let mut stages = Stages::new(alloc);
    stages.keep_at_least(0, 500)?;
    stages.add(0, 5)?;
    stages.mul(0, 3)?;
    let joints = vec![in alloc; Joint::Wait(16), Joint::Unbounded, Joint::Wait(16)]?;
    let pipeline = Pipeline::new(stages, joints);
    match Fault::new(9) {
        Some(code) => Ok(pipeline.with_guard(1, Field::new(alloc, b"x")?, code)),
        None => Ok(pipeline),
    }
}

#[test]
fn a_pipeline_by_hand(rt: HostRuntime) -> Result<(), Fail> {
    let alloc = rt.alloc();
    let pipeline = pipeline_by_hand(alloc)?;
    assert_eq!(rt; pipeline.stages(), 3);
    if pipeline.stages() == 3 {
        assert_eq!(rt; pipeline.joint(2), Joint::Unbounded);
    }
    assert_eq!(rt; pipeline.joints().len(), 3);
    let records = read_records(alloc, b"838,0\n758,1\n113,2\n0,x\n")?;
    let text = one_thread_text(alloc, &pipeline, records)?;
    let want = b"result,0,2529,0\nresult,1,2289,1\ncounts,3,2,0,1\nending,guard,9\n";
    assert_eq!(rt; text.bytes(), want.as_slice());
    Ok(())
}

#[test]
fn counts_and_a_row(rt: HostRuntime) -> Result<(), Fail> {
    let outcomes = vec![in rt.alloc(); Outcome::Filtered { number: 7 }]?;
    let fields = [b"sum".as_slice(), b"a,b".as_slice()];
    let text = counts_text(rt.alloc(), &outcomes, &fields)?;
    let want = b"counts,1,0,0,1\nsum,\"a,b\"\nending,done\n";
    assert_eq!(rt; text.bytes(), want.as_slice());
    Ok(())
}

#[test]
fn pipelines_are_lent_and_outcomes_moved_across_threads(rt: HostRuntime) -> Result<(), Fail> {
    let alloc = rt.alloc();
    let pipeline = parse_pipeline(alloc, b"stage copy 0\n")?;
    let record = record_of(alloc, 0, &[b"a"])?;
    let outcomes = vec![in alloc; Outcome::Filtered { number: 1 }]?;
    let (outcome, count) = join(
        &rt,
        || apply_stage(&pipeline, 1, record),
        move || outcomes.len(),
    );
    assert!(rt; matches!(&outcome, Ok(Outcome::Result(now)) if is_record(now, 0, &[b"a", b"a"])));
    assert_eq!(rt; count, 1);
    Ok(())
}
