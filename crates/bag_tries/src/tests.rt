use super::*;
use bag_rule::BagTable;
use std::test::Fail;

#[test]
fn a_free_list_takes_an_item(rt: HostRuntime) -> Result<(), Fail> {
    let (table, mut seat) = BagTable::new(rt.alloc(), 1)?;
    assert!(rt; matches!(try_add(&table, &mut seat, 0, 5u64), AddTry::Done(0)));
    Ok(())
}

#[test]
fn an_add_that_waits_takes_an_item(rt: HostRuntime) -> Result<(), Fail> {
    let (table, mut seat) = BagTable::new(rt.alloc(), 2)?;
    assert!(rt; matches!(add(&rt, &table, &mut seat, 0, 5u64), AddTry::Done(0)));
    Ok(())
}

#[test]
fn an_empty_bag_says_so(rt: HostRuntime) -> Result<(), Fail> {
    let (table, mut seat) = BagTable::<u64>::new(rt.alloc(), 2)?;
    assert!(rt; matches!(try_take(&table, &mut seat, 0), TakeTry::Empty(0)));
    Ok(())
}

#[test]
fn an_empty_bag_has_no_numbers(rt: HostRuntime) -> Result<(), Fail> {
    let (table, mut seat) = BagTable::<u64>::new(rt.alloc(), 64)?;
    assert!(rt;
        matches!(snap(&rt, rt.alloc(), &table, &mut seat, 0), Ok((items, 0)) if items.as_slice().is_empty())
    );
    Ok(())
}
