ghost use Rattle.std.specs.Prelude.{◌≡◌};

use super::*;
use ho_base::{NoMemory, Receipt};
use ho_model::{Call, Entry, History, Items, Object, Reply, Verdict, replay};
use std::alloc::Global;
use std::test::Fail;

fn enqueued(item: u64, position: u64) -> Made {
    Made {
        call: Call::Enq(item),
        reply: Reply::Done,
        receipt: Receipt::Enqueued {
            position,
            segment: 0,
        },
    }
}

fn dequeued(item: u64, position: u64) -> Made {
    Made {
        call: Call::Deq,
        reply: Reply::Item(item),
        receipt: Receipt::Dequeued { position },
    }
}

fn peeked(item: u64, position: u64) -> Made {
    Made {
        call: Call::Peek,
        reply: Reply::Item(item),
        receipt: Receipt::Peeked { position },
    }
}

fn looked(call: Call, reply: Reply, head: u64, tail: u64) -> Made {
    Made {
        call,
        reply,
        receipt: Receipt::Looked { head, tail },
    }
}

fn is_entry(entry: &Entry, caller: u32, call: Call) -> bool {
    entry.caller == caller && entry.call == call
}

fn verdict(alloc: Global, room: u32, history: &History) -> Result<Verdict, NoMemory> {
    replay(
        alloc,
        &Object::Queue { room, first_len: 2 },
        history.entries(),
    )
}

#[test]
fn a_take_makes_room_for_an_enqueue(rt: HostRuntime) -> Result<(), Fail> {
    let alloc = rt.alloc();
    let mut first = Part::new(alloc, 0);
    first.push(enqueued(7, 0))?;
    first.push(enqueued(8, 1))?;
    first.push(dequeued(7, 0))?;
    let mut second = Part::new(alloc, 1);
    second.push(enqueued(9, 2))?;
    second.push(looked(Call::Count, Reply::Count(2), 1, 3))?;
    let history = weave_queue(alloc, 2, &[first, second])?;
    match history.entries() {
        [a, b, c, d, e] => {
            assert!(rt; is_entry(a, 0, Call::Enq(7)) && matches!(&a.reply, Reply::Done));
            assert!(rt; is_entry(b, 0, Call::Enq(8)) && matches!(&b.reply, Reply::Done));
            assert!(rt; is_entry(c, 0, Call::Deq) && matches!(&c.reply, Reply::Item(7)));
            assert!(rt; is_entry(d, 1, Call::Enq(9)) && matches!(&d.reply, Reply::Done));
            assert!(rt; is_entry(e, 1, Call::Count) && matches!(&e.reply, Reply::Count(2)));
        }
        _ => assert!(rt; false),
    }
    assert_eq!(rt; verdict(alloc, 2, &history)?, Verdict::Legal);
    Ok(())
}

#[test]
fn a_queue_is_empty_before_the_first_enqueue(rt: HostRuntime) -> Result<(), Fail> {
    let alloc = rt.alloc();
    let mut first = Part::new(alloc, 0);
    first.push(looked(Call::Deq, Reply::Empty, 0, 0))?;
    first.push(dequeued(5, 0))?;
    let mut second = Part::new(alloc, 1);
    second.push(enqueued(5, 0))?;
    let history = weave_queue(alloc, 2, &[first, second])?;
    match history.entries() {
        [a, b, c] => {
            assert!(rt; is_entry(a, 0, Call::Deq) && matches!(&a.reply, Reply::Empty));
            assert!(rt; is_entry(b, 1, Call::Enq(5)) && matches!(&b.reply, Reply::Done));
            assert!(rt; is_entry(c, 0, Call::Deq) && matches!(&c.reply, Reply::Item(5)));
        }
        _ => assert!(rt; false),
    }
    Ok(())
}

#[test]
fn the_least_caller_goes_first_whatever_its_place(rt: HostRuntime) -> Result<(), Fail> {
    let alloc = rt.alloc();
    let mut greater = Part::new(alloc, 9);
    greater.push(peeked(7, 0))?;
    let mut lesser = Part::new(alloc, 3);
    lesser.push(enqueued(7, 0))?;
    lesser.push(peeked(7, 0))?;
    let history = weave_queue(alloc, 1, &[greater, lesser])?;
    match history.entries() {
        [a, b, c] => {
            assert!(rt; is_entry(a, 3, Call::Enq(7)));
            assert!(rt; is_entry(b, 3, Call::Peek));
            assert!(rt; is_entry(c, 9, Call::Peek));
        }
        _ => assert!(rt; false),
    }
    Ok(())
}

#[test]
fn a_snapshot_keeps_its_items(rt: HostRuntime) -> Result<(), Fail> {
    let alloc = rt.alloc();
    let mut part = Part::new(alloc, 4);
    part.push(enqueued(7, 0))?;
    let items = Items::from_vec(Vec::from_slice(alloc, &[7])?);
    part.push(looked(Call::Snap, Reply::Numbers(items), 0, 1))?;
    let history = weave_queue(alloc, 1, &[part])?;
    match history.entries() {
        [a, b] => {
            assert!(rt; is_entry(a, 4, Call::Enq(7)));
            match &b.reply {
                Reply::Numbers(items) => assert_eq!(rt; items.as_slice(), [7].as_slice()),
                _ => assert!(rt; false),
            }
        }
        _ => assert!(rt; false),
    }
    assert_eq!(rt; verdict(alloc, 1, &history)?, Verdict::Legal);
    Ok(())
}

#[test]
fn no_part_makes_no_history(rt: HostRuntime) -> Result<(), Fail> {
    let alloc = rt.alloc();
    let none: [Part; 0] = [];
    assert_eq!(rt; weave_queue(alloc, 2, &none)?.entries().len(), 0);
    assert_eq!(rt; weave_placed(alloc, &none)?.entries().len(), 0);
    let still = [Part::new(alloc, 5)];
    assert_eq!(rt; weave_queue(alloc, 2, &still)?.entries().len(), 0);
    Ok(())
}

fn placed(item: u64, number: u64) -> Made {
    Made {
        call: Call::Add(item),
        reply: Reply::Done,
        receipt: Receipt::Place { number },
    }
}

#[test]
fn places_tell_the_order(rt: HostRuntime) -> Result<(), Fail> {
    let alloc = rt.alloc();
    let mut first = Part::new(alloc, 0);
    first.push(placed(6, 1))?;
    first.push(placed(9, 4))?;
    let mut second = Part::new(alloc, 1);
    second.push(placed(5, 0))?;
    second.push(placed(7, 2))?;
    second.push(placed(8, 3))?;
    let history = weave_placed(alloc, &[first, second])?;
    match history.entries() {
        [a, b, c, d, e] => {
            assert!(rt; is_entry(a, 1, Call::Add(5)));
            assert!(rt; is_entry(b, 0, Call::Add(6)));
            assert!(rt; is_entry(c, 1, Call::Add(7)));
            assert!(rt; is_entry(d, 1, Call::Add(8)));
            assert!(rt; is_entry(e, 0, Call::Add(9)));
        }
        _ => assert!(rt; false),
    }
    Ok(())
}

// A queue of consecutive items, by its counts.
#[derive(Clone, Copy)]
struct Counts {
    head: u64,
    tail: u64,
}

const ROOM: u64 = 64;

const CALLERS: u64 = 16;

const STEPS: u64 = 20_000;

// The next call of a made-up run, by the number of the step.
fn next_made(step: u64, counts: &mut Counts) -> Made {
    let Counts { head, tail } = *counts;
    let left = tail.wrapping_sub(head);
    match (step / 3) % 7 {
        0 | 1 | 2 => {
            if left < ROOM {
                counts.tail = tail.wrapping_add(1);
                enqueued(tail, tail)
            } else {
                looked(Call::Enq(step), Reply::Full, head, tail)
            }
        }
        3 => looked(Call::Count, Reply::Count(left), head, tail),
        4 if left > 0 => peeked(head, head),
        4 => looked(Call::Peek, Reply::Empty, head, tail),
        _ if left > 0 => {
            counts.head = head.wrapping_add(1);
            dequeued(head, head)
        }
        _ => looked(Call::Deq, Reply::Empty, head, tail),
    }
}

// The parts of that run.
fn many_parts(alloc: Global) -> Result<Vec<Part>, NoMemory> {
    let mut parts = Vec::new(alloc);
    for caller in 0..CALLERS {
        parts.push(Part::new(alloc, caller as u32))?;
    }
    let mut counts = Counts { head: 0, tail: 0 };
    for step in 0..STEPS {
        let caller = (step / 11) % CALLERS;
        let made = next_made(step, &mut counts);
        if let Some(part) = parts.get_mut(caller as usize) {
            part.push(made)?;
        }
    }
    Ok(parts)
}

#[test]
fn many_calls_of_many_callers(rt: HostRuntime) -> Result<(), Fail> {
    let alloc = rt.alloc();
    let parts = many_parts(alloc)?;
    let history = weave_queue(alloc, ROOM as u32, &parts)?;
    assert_eq!(rt; history.entries().len(), STEPS as usize);
    assert_eq!(rt; verdict(alloc, ROOM as u32, &history)?, Verdict::Legal);
    Ok(())
}

// What a thread can hand to another.
fn sent<T: Send>(value: T) -> T
    ensures { result ≡ value }
{
    value
}

#[test]
fn a_thread_may_hand_on_its_part(rt: HostRuntime) -> Result<(), Fail> {
    let alloc = rt.alloc();
    let mut part = Part::new(alloc, 0);
    part.push(placed(6, 0))?;
    let history = weave_placed(alloc, &[sent(part)])?;
    assert_eq!(rt; history.entries().len(), 1);
    Ok(())
}
