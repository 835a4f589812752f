mod driving;

use super::*;
use ho_base::NoMemory;
use ho_model::{Call, Entry, History, Mode, Object, Reply, Store};
use std::alloc::Global;
use std::test::Fail;

const QUEUE: Object = Object::Queue {
    room: 2,
    first_len: 2,
};

fn script_fault(alloc: Global, text: &[u8]) -> Option<ScriptFault> {
    parse_script(alloc, text).err()
}

fn history_fault(alloc: Global, object: &Object, text: &[u8]) -> Option<ScriptFault> {
    parse_history(alloc, object, text).err()
}

fn refused(row: u64, cause: u8) -> Option<ScriptFault> {
    Some(ScriptFault::Refused { row, cause })
}

// The text, and this row so many times behind it.
fn repeated(alloc: Global, text: &[u8], row: &[u8], times: usize) -> Result<Vec<u8>, NoMemory> {
    let mut all = Vec::from_slice(alloc, text)?;
    for _ in 0..times {
        all.extend_from_slice(row)?;
    }
    Ok(all)
}

// Whether a text is a script of this object without calls.
fn has_object(alloc: Global, text: &[u8], object: Object) -> bool {
    match parse_script(alloc, text) {
        Ok(script) => *script.object() == object && script.callers() == 1,
        Err(_) => false,
    }
}

fn queue(room: u32, first_len: u32) -> Object {
    Object::Queue { room, first_len }
}

fn bounded(capacity: u32, mode: Mode) -> Object {
    Object::Bounded { capacity, mode }
}

fn blocking(store: Store, bound: Option<u32>) -> Object {
    Object::Blocking { store, bound }
}

#[test]
fn objects_are_read(rt: HostRuntime) {
    let alloc = rt.alloc();
    assert!(rt; has_object(alloc, b"queue,4096,1024", queue(4096, 1024)));
    assert!(rt; has_object(alloc, b"queue,1,2", queue(1, 2)));
    assert!(rt; has_object(alloc, b"bag\r\n", Object::Bag));
    assert!(rt; has_object(alloc, b"\xef\xbb\xbfunbounded", Object::Unbounded));
    assert!(rt; has_object(alloc, b"prioritized", Object::Prioritized));
    assert!(rt; has_object(alloc, b"bounded,1,wait", bounded(1, Mode::Wait)));
    assert!(rt; has_object(alloc, b"bounded,2,dropnewest", bounded(2, Mode::DropNewest)));
    assert!(rt;
        has_object(
            alloc,
            b"bounded,65536,dropoldest",
            bounded(65_536, Mode::DropOldest)
        )
    );
    assert!(rt;
        has_object(
            alloc,
            b"\"bounded\",0002,dropwrite",
            bounded(2, Mode::DropWrite)
        )
    );
    assert!(rt; has_object(alloc, b"blocking,fifo,0", blocking(Store::Fifo, None)));
    assert!(rt; has_object(alloc, b"blocking,lifo,1", blocking(Store::Lifo, Some(1))));
    assert!(rt;
        has_object(
            alloc,
            b"blocking,bag,65536",
            blocking(Store::Bag, Some(65_536))
        )
    );
}

#[test]
fn other_objects_are_refused(rt: HostRuntime) {
    let table = [
        b"queue,2,3".as_slice(),
        b"queue,2,1",
        b"queue,2,2048",
        b"queue,0,2",
        b"queue,4097,2",
        b"queue,2",
        b"queue,2,2,",
        b"Bag",
        b"bag,1",
        b"bounded,0,wait",
        b"bounded,65537,wait",
        b"bounded,1,Wait",
        b"bounded,+1,wait",
        b"bounded,000000000000000000001,wait",
        b"blocking,bag,65537",
        b"blocking,list,1",
        b"blocking,fifo,",
    ];
    for text in table {
        assert_eq!(rt; script_fault(rt.alloc(), text), refused(0, 2), "{text:?}");
    }
    assert_eq!(rt; script_fault(rt.alloc(), b""), refused(0, 1));
    assert_eq!(rt; script_fault(rt.alloc(), b"\n\r\n"), refused(0, 1));
}

#[test]
fn a_row_of_a_script_is_refused_for_its_first_cause(rt: HostRuntime) -> Result<(), Fail> {
    let table = [
        (b"16,deq".as_slice(), 3),
        (b"x,fly,7".as_slice(), 3),
        (b",deq".as_slice(), 3),
        (b"000000000000000000000,deq".as_slice(), 3),
        (b"0".as_slice(), 4),
        (b"0,fly".as_slice(), 4),
        (b"0,add,7".as_slice(), 4),
        (b"0,Enq,x".as_slice(), 4),
        (b"0,fly,7,8".as_slice(), 4),
        (b"0,enq".as_slice(), 5),
        (b"0,enq,".as_slice(), 5),
        (b"0,enq,18446744073709551616".as_slice(), 5),
        (b"0,enq,7,".as_slice(), 5),
        (b"0,deq,7".as_slice(), 5),
    ];
    for (row, cause) in table {
        let text = repeated(rt.alloc(), b"queue,2,2\n0,deq\n\n15,deq,\n", row, 1)?;
        assert_eq!(rt;
            script_fault(rt.alloc(), &text),
            refused(3, cause),
            "{row:?}"
        );
    }
    Ok(())
}

#[test]
fn scripts_have_limits(rt: HostRuntime) -> Result<(), Fail> {
    let alloc = rt.alloc();
    let snaps = repeated(alloc, b"bag\n", b"0,snap\n", 100)?;
    assert_eq!(rt; script_fault(alloc, &snaps), None);
    let snaps = repeated(alloc, &snaps, b"0,count\n", 1)?;
    let snaps = repeated(alloc, &snaps, b"0,snap\n", 1)?;
    assert_eq!(rt; script_fault(alloc, &snaps), refused(102, 6));
    let rows = repeated(alloc, b"bag\n", b"3,take\n", 20_000)?;
    let script = parse_script(alloc, &rows);
    assert!(rt; matches!(&script, Ok(script) if script.callers() == 4));
    let rows = repeated(alloc, &rows, b"16,fly\n", 1)?;
    assert_eq!(rt; script_fault(alloc, &rows), Some(ScriptFault::TooManyRows));
    Ok(())
}

// Whether a text is read, and written again byte for byte.
fn is_read_back(alloc: Global, object: &Object, text: &[u8]) -> Result<bool, NoMemory> {
    let Ok(history) = parse_history(alloc, object, text) else {
        return Ok(false);
    };
    let written = history_text(alloc, &history)?;
    Ok(written.bytes() == text)
}

#[test]
fn every_word_of_a_queue_is_read_and_written(rt: HostRuntime) -> Result<(), Fail> {
    let text =
        b"0,0,enq,7,done\n1,15,enq,18446744073709551615,full\n2,0,deq,,item,7\n3,0,deq,,empty\n4,0,peek,,item,7\n5,0,peek,,empty\n6,0,count,,count,2\n7,0,snap,,items\n8,0,snap,,items,7,8\n";
    assert!(rt; is_read_back(rt.alloc(), &QUEUE, text)?);
    assert!(rt; is_read_back(rt.alloc(), &QUEUE, b"")?);
    Ok(())
}

#[test]
fn every_word_of_a_bag_is_read_and_written(rt: HostRuntime) -> Result<(), Fail> {
    let text =
        b"0,0,add,5,done\n1,0,add,6,full\n2,1,take,,item,5,15\n3,0,take,,empty\n4,0,count,,count,3\n5,0,snap,,items,5\n";
    assert!(rt; is_read_back(rt.alloc(), &Object::Bag, text)?);
    Ok(())
}

#[test]
fn every_word_of_a_blocking_collection_is_read_and_written(rt: HostRuntime) -> Result<(), Fail> {
    let text =
        b"0,0,add,4,done\n1,0,add,5,full\n2,0,add,6,closed\n3,0,take,,item,4\n4,0,take,,empty\n5,0,take,,ended\n6,0,complete,,done\n7,0,adding-completed,,yes\n8,0,adding-completed,,no\n9,0,completed,,yes\n10,0,completed,,no\n11,0,count,,count,1\n12,0,snap,,items,4\n";
    let object = blocking(Store::Fifo, Some(1));
    assert!(rt; is_read_back(rt.alloc(), &object, text)?);
    Ok(())
}

#[test]
fn every_word_of_a_channel_is_read_and_written(rt: HostRuntime) -> Result<(), Fail> {
    let texts = [
        b"0,0,write,1,done\n1,0,write,2,done,dropped,1\n2,0,write,3,full\n3,0,write,4,refused,9,4\n4,0,begin-write,1,done\n5,0,begin-write,2,done,dropped,1\n6,0,begin-write,3,refused,0,3\n7,0,begin-write,4,waiting,0\n".as_slice(),
        b"0,0,read,,item,1\n1,0,read,,empty\n2,0,read,,closed,0\n3,0,begin-read,,item,1\n4,0,begin-read,,closed,65535\n5,0,begin-read,,waiting,1\n",
        b"0,0,begin-look-read,,ready,1\n1,0,begin-look-read,,ready,0\n2,0,begin-look-read,,faulted,9\n3,0,begin-look-read,,waiting,2\n4,0,begin-look-write,,ready,1\n5,0,begin-look-write,,ready,0\n6,0,begin-look-write,,faulted,9\n7,0,begin-look-write,,waiting,3\n",
        b"0,0,poll,0,waiting,0\n1,0,poll,0,done\n2,0,poll,0,refused,9,2\n3,0,poll,0,item,5\n4,0,poll,0,closed,9\n5,0,poll,0,ready,1\n6,0,poll,0,ready,0\n7,0,poll,0,faulted,9\n8,0,poll,0,unknown\n",
        b"0,0,cancel,0,done\n1,0,cancel,0,refused,9,2\n2,0,cancel,0,item,5\n3,0,cancel,0,closed,9\n4,0,cancel,0,ready,1\n5,0,cancel,0,ready,0\n6,0,cancel,0,faulted,9\n7,0,cancel,0,unknown\n8,0,cancel,0,cancelled\n9,0,cancel,0,cancelled,2\n",
        b"0,0,complete,0,yes\n1,0,complete,65535,no\n2,0,completed,,yes\n3,0,completed,,no\n4,0,peek,,item,1\n5,0,peek,,empty\n6,0,count,,count,1\n",
    ];
    for text in texts {
        assert!(rt;
            is_read_back(rt.alloc(), &Object::Prioritized, text)?,
            "{text:?}"
        );
    }
    Ok(())
}

#[test]
fn a_row_of_a_history_is_refused_for_its_first_cause(rt: HostRuntime) {
    let alloc = rt.alloc();
    let queue = [
        (b"0,0,enq,7".as_slice(), 7),
        (b"1,16,fly,7,maybe".as_slice(), 7),
        (b",0,enq,7,done".as_slice(), 7),
        (b"00,16,fly,x,maybe".as_slice(), 3),
        (b"0,0,add,x,maybe".as_slice(), 4),
        (b"0,0,enq,,maybe".as_slice(), 5),
        (b"0,0,deq,7,maybe".as_slice(), 5),
        (b"0,0,enq,7,maybe".as_slice(), 8),
        (b"0,0,enq,7,closed".as_slice(), 8),
        (b"0,0,enq,7,done,".as_slice(), 8),
        (b"0,0,deq,,item,7,0".as_slice(), 8),
        (b"0,0,snap,,items,".as_slice(), 8),
        (b"0,0,count,,count".as_slice(), 8),
    ];
    for (text, cause) in queue {
        assert_eq!(rt;
            history_fault(alloc, &QUEUE, text),
            refused(0, cause),
            "{text:?}"
        );
    }
    let channel = [
        (b"0,0,complete,65536,yes".as_slice(), 5),
        (b"0,0,begin-write,1,full".as_slice(), 8),
        (b"0,0,cancel,0,waiting,0".as_slice(), 8),
        (b"0,0,poll,0,cancelled".as_slice(), 8),
        (b"0,0,poll,0,ready,2".as_slice(), 8),
        (b"0,0,poll,0,ready,01".as_slice(), 8),
        (b"0,0,poll,0,faulted,65536".as_slice(), 8),
        (b"0,0,read,,closed".as_slice(), 8),
        (b"0,0,write,1,done,lost,1".as_slice(), 8),
    ];
    for (text, cause) in channel {
        assert_eq!(rt;
            history_fault(alloc, &Object::Unbounded, text),
            refused(0, cause),
            "{text:?}"
        );
    }
    let bag = [b"0,0,take,,item,5".as_slice(), b"0,0,take,,item,5,16"];
    for text in bag {
        assert_eq!(rt;
            history_fault(alloc, &Object::Bag, text),
            refused(0, 8),
            "{text:?}"
        );
    }
}

#[test]
fn what_a_history_says(rt: HostRuntime) {
    let text = b"0,3,enq,7,done\r\n\n\"1\",0,deq,,\"item\",007\n";
    let history = parse_history(rt.alloc(), &QUEUE, text);
    match &history {
        Ok(history) => match history.entries() {
            [first, second] => {
                assert_eq!(rt; first.caller, 3);
                assert_eq!(rt; first.call, Call::Enq(7));
                assert!(rt; matches!(first.reply, Reply::Done));
                assert_eq!(rt; second.call, Call::Deq);
                assert!(rt; matches!(second.reply, Reply::Item(7)));
            }
            _ => assert!(rt; false),
        },
        Err(_) => assert!(rt; false),
    }
}

#[test]
fn a_history_has_20000_rows_at_most(rt: HostRuntime) -> Result<(), Fail> {
    let alloc = rt.alloc();
    let mut entries = Vec::new(alloc);
    for _ in 0..20_000 {
        entries.push(Entry {
            caller: 0,
            call: Call::Deq,
            reply: Reply::Empty,
        })?;
    }
    let text = history_text(alloc, &History::from_vec(entries))?;
    assert_eq!(rt; history_fault(alloc, &QUEUE, text.bytes()), None);
    let more = repeated(alloc, text.bytes(), b"x\n", 1)?;
    assert_eq!(rt;
        history_fault(alloc, &QUEUE, &more),
        Some(ScriptFault::TooManyRows)
    );
    Ok(())
}

// Whether a history's text is judged so, beside a script of two callers.
fn is_checked(alloc: Global, text: &[u8], checked: Checked) -> bool {
    let Ok(script) = parse_script(alloc, b"queue,2,2\n0,enq,7\n1,deq\n") else {
        return false;
    };
    let Ok(history) = parse_history(alloc, script.object(), text) else {
        return false;
    };
    check_history(alloc, &script, &history) == Ok(checked)
}

fn lacking(caller: u32, index: u64) -> Checked {
    Checked::Lacking { caller, index }
}

#[test]
fn a_history_is_judged_beside_a_script(rt: HostRuntime) {
    let alloc = rt.alloc();
    let legal = Checked::Legal { entries: 2 };
    assert!(rt; is_checked(alloc, b"0,0,enq,7,done\n1,1,deq,,item,7\n", legal));
    assert!(rt; is_checked(alloc, b"0,1,deq,,empty\n1,0,enq,7,done\n", legal));
    let illegal = Checked::Illegal { at: 0 };
    assert!(rt; is_checked(alloc, b"0,1,deq,,item,7\n1,0,enq,7,done\n", illegal));
    // an illegal entry is told before a call that is one too many
    let illegal = Checked::Illegal { at: 2 };
    let text = b"0,0,enq,7,done\n1,1,deq,,item,7\n2,15,deq,,item,7\n";
    assert!(rt; is_checked(alloc, text, illegal));
}

#[test]
fn a_history_lacks_a_call_or_has_one_too_many(rt: HostRuntime) {
    let alloc = rt.alloc();
    assert!(rt; is_checked(alloc, b"", lacking(0, 0)));
    assert!(rt; is_checked(alloc, b"0,0,enq,7,done\n", lacking(1, 0)));
    let twice = b"0,0,enq,7,done\n1,0,enq,7,done\n2,1,deq,,item,7\n";
    assert!(rt; is_checked(alloc, twice, lacking(0, 1)));
    assert!(rt; is_checked(alloc, b"0,0,enq,8,done\n1,1,deq,,item,8\n", lacking(0, 0)));
    let another = b"0,0,enq,7,done\n1,1,deq,,item,7\n2,15,deq,,empty\n";
    assert!(rt; is_checked(alloc, another, lacking(15, 0)));
}
