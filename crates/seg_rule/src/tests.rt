// Steps by one pass, which holds all numbers: each is made in the order in which a call makes it.
#![tactic(auto, using(crate::proofs::Worked::power_2))]

use super::*;
use std::test::Fail;

#[test]
fn a_new_queue_is_empty(rt: HostRuntime) -> Result<(), Fail> {
    let (table, mut pass) = QueueTable::new(rt.alloc(), 2, 2, 1)?;
    let first = table.load(&mut pass, QueueWord::First, Entering::Nothing);
    assert_eq!(rt; first, 0);
    let head = table.load(&mut pass, QueueWord::Head, Entering::Nothing);
    assert_eq!(rt; head, 0);
    let empty = Entering::Empty { head, peek: false };
    let tail = table.load(&mut pass, QueueWord::Tail(0), empty);
    assert_eq!(rt; tail, 0);
    assert_eq!(rt; pass.caller(), 0);
    assert!(rt; !pass.is_spent());
    Ok(())
}

#[test]
fn the_turn_is_taken_and_given_back(rt: HostRuntime) -> Result<(), Fail> {
    let (table, mut pass) = QueueTable::new(rt.alloc(), 2, 2, 1)?;
    if table.turn_take(&mut pass).is_ok() {
        table.turn_leave(&mut pass);
        let turn = table.load(&mut pass, QueueWord::Turn, Entering::Nothing);
        assert_eq!(rt; turn, 0);
    }
    Ok(())
}

#[test]
fn a_number_is_split_off_and_joined(rt: HostRuntime) -> Result<(), Fail> {
    let (table, mut pass) = QueueTable::new(rt.alloc(), 2, 2, 2)?;
    let other = table.split(&mut pass);
    assert_eq!(rt; other.caller(), 1);
    assert_eq!(rt; pass.spare(), 0);
    table.join(&mut pass, other);
    assert_eq!(rt; pass.spare(), 1);
    Ok(())
}

#[test]
fn an_item_is_put_into_its_slot(rt: HostRuntime) -> Result<(), Fail> {
    let (table, mut pass) = QueueTable::new(rt.alloc(), 2, 2, 1)?;
    let tail = table.load(&mut pass, QueueWord::Tail(0), Entering::Nothing);
    let head = table.load(&mut pass, QueueWord::Head, Entering::Nothing);
    let length = table.load(&mut pass, QueueWord::Length(0), Entering::Nothing);
    let number = table.load(&mut pass, QueueWord::Number(0, 0), Entering::Nothing);
    assert_eq!(rt; (tail, head, length, number), (0, 0, 2, 0));
    if tail != 0 || head != 0 || length != 2 || number != 0 {
        return Err(Fail::new("other words"));
    }
    let Ok(()) = table.tail_reserve(&mut pass, 0, 0, 7) else {
        return Err(Fail::new("the tail moved"));
    };
    table.item_store(&mut pass);
    table.publish(&mut pass);
    let number = table.load(&mut pass, QueueWord::Number(0, 0), Entering::Nothing);
    assert_eq!(rt; number, 1);
    Ok(())
}
