// Rows of a bag of local lists, by tries and by calls that wait.
ghost use Rattle.std.specs.Prelude.{◌≡◌, ◌<◌};

use crate::{BagAdd, BagAddOnce, BagPass, BagTake, BagTakeOnce, ConcurrentBag, TurnBag};
use ho_base::Receipt;
use std::test::Fail;

fn place(number: u64) -> Receipt {
    Receipt::Place { number }
}

/// Whether a bag takes so many items, from 0, into the list of the caller.
fn fills(bag: &ConcurrentBag<u64>, pass: &mut BagPass, count: u64) -> bool
    requires { pass.old.table ≡ bag.now }
    ensures { pass.new.table ≡ bag.now }
{
    for item in 0..count {
        if !matches!(
            bag.add_once(pass, item),
            BagAddOnce::Answer(BagAdd::Done, _)
        ) {
            return false;
        }
    }
    true
}

#[test]
fn a_whole_pass_meets_nobody(rt: HostRuntime) -> Result<(), Fail> {
    let (bag, mut pass) = ConcurrentBag::new(rt.alloc(), 1)?;
    assert_eq!(rt;
        bag.take_once(&mut pass),
        BagTakeOnce::Answer(BagTake::Empty, place(0))
    );
    assert_eq!(rt;
        bag.add_once(&mut pass, 5u64),
        BagAddOnce::Answer(BagAdd::Done, place(1))
    );
    assert_eq!(rt;
        bag.take_once(&mut pass),
        BagTakeOnce::Answer(BagTake::Item { from: 0, item: 5 }, place(2))
    );
    assert!(rt; pass.is_whole());
    Ok(())
}

#[test]
fn a_caller_tries_its_own_list_first(rt: HostRuntime) -> Result<(), Fail> {
    let (bag, mut a) = ConcurrentBag::new(rt.alloc(), 3)?;
    let mut b = bag.split(&mut a);
    assert!(rt; fills(&bag, &mut a, 3));
    assert!(rt; matches!(bag.add_once(&mut b, 4), BagAddOnce::Answer(BagAdd::Done, _)));
    // its own last item, and then the first of the other list
    assert_eq!(rt;
        bag.take_once(&mut b),
        BagTakeOnce::Answer(BagTake::Item { from: 1, item: 4 }, place(4))
    );
    assert_eq!(rt;
        bag.take_once(&mut b),
        BagTakeOnce::Answer(BagTake::Item { from: 0, item: 0 }, place(5))
    );
    assert_eq!(rt;
        bag.take_once(&mut a),
        BagTakeOnce::Answer(BagTake::Item { from: 0, item: 2 }, place(6))
    );
    assert_eq!(rt; bag.count(&rt, &mut b), (1, place(7)));
    bag.join(&mut a, b);
    assert!(rt;
        matches!(bag.snapshot(&rt, rt.alloc(), &mut a), Ok((items, at)) if items.as_slice() == [1].as_slice() && at == place(8))
    );
    Ok(())
}

#[test]
fn who_is_gone_leaves_its_items(rt: HostRuntime) -> Result<(), Fail> {
    let (bag, mut a) = ConcurrentBag::new(rt.alloc(), 2)?;
    let mut b = bag.split(&mut a);
    assert!(rt; matches!(bag.add(&rt, &mut b, 5u64), Ok((BagAdd::Done, _))));
    drop(b);
    assert_eq!(rt;
        bag.take(&rt, &mut a),
        (BagTake::Item { from: 1, item: 5 }, place(1))
    );
    assert_eq!(rt; bag.take(&rt, &mut a), (BagTake::Empty, place(2)));
    assert!(rt; !a.is_whole());
    Ok(())
}

#[test]
fn a_list_is_full_at_its_limit(rt: HostRuntime) -> Result<(), Fail> {
    let (bag, mut a) = ConcurrentBag::new(rt.alloc(), 2)?;
    let mut b = bag.split(&mut a);
    assert!(rt; fills(&bag, &mut a, 16_383));
    assert_eq!(rt;
        bag.add_once(&mut a, 7),
        BagAddOnce::Answer(BagAdd::Full(7), place(16_383))
    );
    assert_eq!(rt;
        bag.add_once(&mut b, 7),
        BagAddOnce::Answer(BagAdd::Done, place(16_384))
    );
    assert_eq!(rt; bag.count(&rt, &mut a), (16_384, place(16_385)));
    Ok(())
}

#[test]
fn the_form_behind_a_turn_answers_alike(rt: HostRuntime) -> Result<(), Fail> {
    let (bag, mut a) = TurnBag::new(rt.alloc(), 2)?;
    let mut b = bag.split(&mut a);
    assert_eq!(rt; (a.spare(), b.caller()), (0, 1));
    assert!(rt; matches!(bag.add(&rt, &mut a, 1u64), Ok((BagAdd::Done, at)) if at == place(0)));
    assert!(rt; matches!(bag.add(&rt, &mut a, 2u64), Ok((BagAdd::Done, at)) if at == place(1)));
    assert_eq!(rt;
        bag.take(&rt, &mut b),
        (BagTake::Item { from: 0, item: 1 }, place(2))
    );
    assert_eq!(rt; bag.count(&rt, &mut b), (1, place(3)));
    bag.join(&mut a, b);
    assert!(rt;
        matches!(bag.snapshot(&rt, rt.alloc(), &mut a), Ok((items, at)) if items.as_slice() == [2].as_slice() && at == place(4))
    );
    Ok(())
}
