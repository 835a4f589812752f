// What begins answer at once.
use super::*;
use ho_model::Mode;

/// The end of a read that need not wait.
fn read_at_once<R: Wait>(rt: &R, reader: &mut Reader<'_, u64>) -> Option<ReadEnd<u64>> {
    let Ok(begun) = ReadWait::begin(rt, reader) else {
        return None;
    };
    match begun {
        Begun::Ended(end) => Some(end),
        Begun::Waiting(_wait) => None,
    }
}

/// The end of a write that need not wait.
fn write_at_once<R: Wait>(
    rt: &R,
    writer: &mut Writer<'_, u64>,
    item: u64,
) -> Option<WriteEnd<u64>> {
    let Ok(begun) = WriteWait::begin(rt, writer, item) else {
        return None;
    };
    match begun {
        Begun::Ended(end) => Some(end),
        Begun::Waiting(_wait) => None,
    }
}

/// The end of a look for an item that need not wait.
fn look_read_at_once<R: Wait>(rt: &R, reader: &mut Reader<'_, u64>) -> Option<LookEnd> {
    let Ok(begun) = LookWait::begin_read(rt, reader) else {
        return None;
    };
    match begun {
        Begun::Ended(end) => Some(end),
        Begun::Waiting(_wait) => None,
    }
}

/// The end of a look for room that need not wait.
fn look_write_at_once<R: Wait>(rt: &R, writer: &mut Writer<'_, u64>) -> Option<LookEnd> {
    let Ok(begun) = LookWait::begin_write(rt, writer) else {
        return None;
    };
    match begun {
        Begun::Ended(end) => Some(end),
        Begun::Waiting(_wait) => None,
    }
}

fn is_faulted_by_nine(end: Option<LookEnd>) -> bool {
    match nine() {
        Some(fault) => end == Some(LookEnd::Faulted(fault)),
        None => false,
    }
}

#[test]
fn begins_that_need_not_wait_have_their_answer(rt: HostRuntime) -> Result<(), Fail> {
    let Ok((channel, mut pass)) = Channel::bounded(rt.alloc(), 1, Mode::DropOldest, 2) else {
        return Err(no_memory());
    };
    let mut writer = writer_of(&channel, &mut pass)?;
    let mut reader = Reader::new(&channel, pass);
    assert!(rt; look_write_at_once(&rt, &mut writer) == Some(LookEnd::Ready(true)));
    assert!(rt; write_at_once(&rt, &mut writer, 1) == Some(WriteEnd::Done));
    assert!(rt; write_at_once(&rt, &mut writer, 2) == Some(WriteEnd::Dropped(1)));
    assert!(rt; look_read_at_once(&rt, &mut reader) == Some(LookEnd::Ready(true)));
    assert!(rt; read_at_once(&rt, &mut reader) == Some(ReadEnd::Item(2)));
    assert!(rt; writer.try_complete(&rt, nine()));
    assert!(rt; write_at_once(&rt, &mut writer, 3) == Some(WriteEnd::Refused(nine(), 3)));
    assert!(rt; read_at_once(&rt, &mut reader) == Some(ReadEnd::Closed(nine())));
    assert!(rt; is_faulted_by_nine(look_read_at_once(&rt, &mut reader)));
    assert!(rt; is_faulted_by_nine(look_write_at_once(&rt, &mut writer)));
    Ok(())
}

#[test]
fn begins_that_own_their_side_give_it_back_at_once(rt: HostRuntime) -> Result<(), Fail> {
    let (channel, mut pass) = Channel::unbounded(rt.alloc(), 2)?;
    let writer = writer_of(&channel, &mut pass)?;
    let reader = Reader::new(&channel, pass);
    let Ok(Begun::Ended(looked)) = OwnedWriteLook::begin(&rt, writer) else {
        return Err(Fail::new("there is no room"));
    };
    assert!(rt; looked.0 == LookEnd::Ready(true));
    let Ok(Begun::Ended(written)) = OwnedWriteWait::begin(&rt, looked.1, 5) else {
        return Err(Fail::new("the write waits"));
    };
    assert!(rt; written.0 == WriteEnd::Done);
    let Ok(Begun::Ended(looked)) = OwnedReadLook::begin(&rt, reader) else {
        return Err(Fail::new("there is no item"));
    };
    assert!(rt; looked.0 == LookEnd::Ready(true));
    let Ok(Begun::Ended(read)) = OwnedReadWait::begin(&rt, looked.1) else {
        return Err(Fail::new("the read waits"));
    };
    assert!(rt; read.0 == ReadEnd::Item(5));
    let mut writer = written.1;
    assert!(rt; writer.try_complete(&rt, None));
    let Ok(Begun::Ended(read)) = OwnedReadWait::begin(&rt, read.1) else {
        return Err(Fail::new("the channel is not closed"));
    };
    assert!(rt; read.0 == ReadEnd::Closed(None));
    Ok(())
}
