use super::*;
use std::test::Fail;

#[test]
fn items_are_the_numbers_they_were_made_of(rt: HostRuntime) -> Result<(), Fail> {
    let items = Items::from_vec(Vec::from_slice(rt.alloc(), &[7, 8])?);
    assert_eq!(rt; items.as_slice(), [7, 8].as_slice());
    Ok(())
}

#[test]
fn a_history_lends_its_entries(rt: HostRuntime) -> Result<(), Fail> {
    let mut entries = Vec::new(rt.alloc());
    entries.push(Entry {
        caller: 3,
        call: Call::Deq,
        reply: Reply::Item(7),
    })?;
    let history = History::from_vec(entries);
    match history.entries() {
        [entry] => {
            assert_eq!(rt; entry.caller, 3);
            assert_eq!(rt; entry.call, Call::Deq);
            assert!(rt; matches!(entry.reply, Reply::Item(7)));
        }
        _ => assert!(rt; false),
    }
    Ok(())
}
