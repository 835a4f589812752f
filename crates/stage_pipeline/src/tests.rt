use super::*;
use crate::made::made_pipeline;
use record_lang::{Pipeline, one_thread_text, parse_pipeline};
use std::alloc::Global;
use std::test::Fail;

mod running;

const MADE: &[u8] = b"stage keep 0 ge 500\nstage add 0 5\nstage mul 0 3\n";

// The text that one thread writes of the first 100 records of a seed.
fn text_of_100(alloc: Global, pipeline: &Pipeline, seed: u16) -> Result<Vec<u8>, Fail> {
    let records = made_records(alloc, 100, u32::from(seed))?;
    let text = one_thread_text(alloc, pipeline, records)?;
    Ok(text.bytes().to_vec(alloc)?)
}

// With seed 1 the first numbers are 838, 758 and 113.
#[test]
fn the_first_records_of_a_seed(rt: HostRuntime) -> Result<(), Fail> {
    let pipeline = made_pipeline(rt.alloc())?;
    let records = made_records(rt.alloc(), 3, 1)?;
    let text = one_thread_text(rt.alloc(), &pipeline, records)?;
    let want = b"result,0,2529,0\nresult,1,2289,1\ncounts,3,2,0,1\nending,done\n";
    assert_eq!(rt; text.bytes(), want.as_slice());
    Ok(())
}

#[test]
fn no_records(rt: HostRuntime) -> Result<(), Fail> {
    let records = made_records(rt.alloc(), 0, 5)?;
    assert!(rt; records.as_slice().is_empty());
    Ok(())
}

// The pipeline of made records is the one that its text means.
#[test]
fn the_pipeline_of_made_records(rt: HostRuntime) -> Result<(), Fail> {
    let made = made_pipeline(rt.alloc())?;
    let parsed = parse_pipeline(rt.alloc(), MADE)?;
    for seed in [0, 1, 12_345, 65_535] {
        let left = text_of_100(rt.alloc(), &made, seed)?;
        let right = text_of_100(rt.alloc(), &parsed, seed)?;
        assert_eq!(rt; left.as_slice(), right.as_slice());
    }
    Ok(())
}
