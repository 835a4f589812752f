use super::*;
use record_lang::{Field, Record, parse_pipeline};
use std::test::Fail;

const WAITS: &[u8] = b"joint unbounded\nstage copy 0\nstage copy 0\n";

const DROPS: &[u8] = b"stage copy 0\njoint dropoldest 1\nstage copy 0\nguard 0 end 7\n";

// The record of one field.
fn result_of(alloc: Global, number: u64, field: &[u8]) -> Result<Outcome, NoMemory> {
    let mut record = Record::new(alloc, number);
    record.push(Field::new(alloc, field)?)?;
    Ok(Outcome::Result(record))
}

fn outcomes_by_hand(alloc: Global) -> Result<Vec<Outcome>, NoMemory> {
    let mut outcomes = Vec::new(alloc);
    outcomes.push(result_of(alloc, 6, b"late")?)?;
    outcomes.push(Outcome::Filtered { number: 2 })?;
    outcomes.push(Outcome::Refused {
        number: 0,
        stage: 1,
        cause: 2,
    })?;
    outcomes.push(result_of(alloc, 1, b"a,b")?)?;
    Ok(outcomes)
}

fn dropped_by_hand(alloc: Global) -> Result<Vec<Dropped>, NoMemory> {
    let mut dropped = Vec::new(alloc);
    dropped.push(Dropped {
        number: 4,
        joint: 2,
    })?;
    dropped.push(Dropped {
        number: 5,
        joint: 1,
    })?;
    dropped.push(Dropped {
        number: 3,
        joint: 1,
    })?;
    Ok(dropped)
}

// What is told of outcomes and dropped records under a pipeline.
fn text_under(
    alloc: Global,
    pipeline: &[u8],
    dropped: Vec<Dropped>,
    code: Option<Fault>,
) -> Result<Ran, Fail> {
    let done = Done {
        joints: Vec::new(alloc),
        outcomes: outcomes_by_hand(alloc)?,
        dropped,
    };
    let pipeline = parse_pipeline(alloc, pipeline)?;
    Ok(ran_of(alloc, &pipeline, code, done)?)
}

#[test]
fn outcomes_stand_in_order(rt: HostRuntime) -> Result<(), Fail> {
    let alloc = rt.alloc();
    let ran = text_under(alloc, WAITS, Vec::new(alloc), None)?;
    let want = b"result,1,\"a,b\"\nresult,6,late\nrefused,0,1,2\ncounts,4,2,1,1\nending,done\n";
    assert_eq!(rt; ran.text.bytes(), want.as_slice());
    Ok(())
}

#[test]
fn dropped_records_stand_by_joint(rt: HostRuntime) -> Result<(), Fail> {
    let alloc = rt.alloc();
    let ran = text_under(alloc, DROPS, dropped_by_hand(alloc)?, Fault::new(7))?;
    let want =
        b"result,1,\"a,b\"\nresult,6,late\nrefused,0,1,2\ndropped,3,1\ndropped,5,1\ndropped,4,2\ncounts,7,2,1,1,3\nending,guard,7\n";
    assert_eq!(rt; ran.text.bytes(), want.as_slice());
    Ok(())
}
