use super::*;
use std::test::Fail;

#[test]
fn a_list_gives_both_ends(rt: HostRuntime) -> Result<(), Fail> {
    let mut list: ItemList<u64> = ItemList::new(rt.alloc());
    for item in [1u64, 2, 3, 4] {
        assert!(rt; list.push(item).is_ok());
    }
    assert!(rt; list.has_item());
    assert_eq!(rt; list.take_last(), 4);
    assert!(rt; list.has_item());
    assert_eq!(rt; list.take_first(), 1);
    assert_eq!(rt; list.len(), 2);
    let mut numbers = Vec::new(rt.alloc());
    list.add_numbers(&mut numbers)?;
    assert!(rt; numbers.as_slice() == [2, 3].as_slice());
    Ok(())
}

#[test]
fn a_ring_is_full_at_its_capacity(rt: HostRuntime) -> Result<(), Fail> {
    let mut ring = ItemRing::with_capacity(rt.alloc(), 2)?;
    assert_eq!(rt; ring.push(1u64), Ok(()));
    assert_eq!(rt; ring.push(2u64), Ok(()));
    assert_eq!(rt; ring.push(3u64), Err(3));
    assert!(rt; ring.is_full());
    assert_eq!(rt; ring.first(), Some(&1));
    assert!(rt; ring.has_item());
    assert_eq!(rt; ring.take_last(), 2);
    assert_eq!(rt; ring.len(), 1);
    Ok(())
}

#[test]
fn a_caller_without_items_takes_the_first_of_the_least_list(rt: HostRuntime) -> Result<(), Fail> {
    let mut lists = CallerLists::new(rt.alloc())?;
    assert_eq!(rt; lists.push(2, 20u64), Ok(()));
    assert_eq!(rt; lists.push(1, 10u64), Ok(()));
    assert_eq!(rt; (lists.count(), lists.len_of(2)), (2, 1));
    assert_eq!(rt; lists.take(0), Some(Taken { from: 1, item: 10 }));
    assert_eq!(rt; lists.take(2), Some(Taken { from: 2, item: 20 }));
    assert_eq!(rt; lists.take(2), None);
    Ok(())
}
