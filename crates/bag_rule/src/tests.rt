use super::*;
use std::test::Fail;

#[test]
fn a_list_in_hand_takes_an_item_and_shows_it(rt: HostRuntime) -> Result<(), Fail> {
    let (table, mut seat) = BagTable::new(rt.alloc(), 1)?;
    assert_eq!(rt; table.callers(), 1);
    let mut numbers = Vec::new(rt.alloc());
    if table.take_list(&mut seat, 0, 0) {
        assert!(rt; table.push(&mut seat, 0, 7u64).is_ok());
        table.add_numbers(&mut seat, 0, &mut numbers)?;
    }
    assert!(rt; numbers.as_slice() == [7].as_slice());
    Ok(())
}
