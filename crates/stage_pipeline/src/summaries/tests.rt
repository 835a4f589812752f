use super::*;
use record_lang::Record;
use std::test::Fail;

// The record of one field.
fn result_of(alloc: Global, number: u64, field: &[u8]) -> Result<Outcome, NoMemory> {
    let mut record = Record::new(alloc, number);
    record.push(Field::new(alloc, field)?)?;
    Ok(Outcome::Result(record))
}

fn done_by_hand(alloc: Global) -> Result<Done, NoMemory> {
    let mut outcomes = Vec::new(alloc);
    outcomes.push(result_of(alloc, 3, b"18446744073709551615")?)?;
    outcomes.push(Outcome::Filtered { number: 0 })?;
    outcomes.push(result_of(alloc, 1, b"2")?)?;
    outcomes.push(Outcome::Refused {
        number: 4,
        stage: 1,
        cause: 2,
    })?;
    outcomes.push(Outcome::Filtered { number: 2 })?;
    Ok(Done {
        joints: Vec::new(alloc),
        outcomes,
        dropped: Vec::new(alloc),
    })
}

#[test]
fn a_summary_by_hand(rt: HostRuntime) -> Result<(), Fail> {
    let alloc = rt.alloc();
    let ran = summary_of(alloc, done_by_hand(alloc)?)?;
    let want = b"counts,5,2,1,2\nsum,18446744073709551617\nending,done\n";
    assert_eq!(rt; ran.text.bytes(), want.as_slice());
    Ok(())
}
