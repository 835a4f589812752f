// Waits that own their reader or writer, and waits that are dropped.
use super::*;
use channels::{ReadReply, WriteReply};
use futures::executor::block_on;
use futures::task::Poll;
use futures::test::MockTask;
use ho_base::Receipt;
use ho_model::Mode;

#[test]
fn each_poll_of_a_wait_is_an_entry(rt: HostRuntime) -> Result<(), Fail> {
    let (channel, pass) = Channel::unbounded(rt.alloc(), 1)?;
    let reader: Reader<'_, u64> = Reader::new(&channel, pass);
    let task = MockTask::new(&rt)?;
    let Ok(begun) = OwnedReadWait::begin(&rt, reader) else {
        return Err(no_memory());
    };
    let Begun::Waiting(mut wait) = begun else {
        return Err(Fail::new("the read ended at once"));
    };
    assert!(rt; wait.number() == 0);
    assert!(rt; task.poll(&mut wait).is_pending());
    assert!(rt; task.is_woken());
    assert!(rt; task.poll(&mut wait).is_pending());
    assert!(rt; task.poll(&mut wait).is_pending());
    let (end, mut reader) = wait.cancel(&rt);
    assert!(rt; end == ReadEnd::Cancelled);
    let counted = reader.call(&rt, ChannelCall::Count);
    assert!(rt;
        matches!(
            counted,
            Ok((ChannelReply::Count(0), Receipt::Place { number: 5 }))
        )
    );
    Ok(())
}

#[test]
fn a_write_that_owns_its_writer_gives_it_back(rt: HostRuntime) -> Result<(), Fail> {
    let Ok((channel, mut pass)) = Channel::bounded(rt.alloc(), 1, Mode::Wait, 2) else {
        return Err(no_memory());
    };
    let mut reader = reader_of(&channel, &mut pass)?;
    let mut writer = Writer::new(&channel, pass);
    let task = MockTask::new(&rt)?;
    assert!(rt; matches!(writer.try_write(&rt, 1), Ok(WriteReply::Done)));
    let Ok(begun) = OwnedWriteLook::begin(&rt, writer) else {
        return Err(no_memory());
    };
    let Begun::Waiting(look) = begun else {
        return Err(Fail::new("there is room"));
    };
    let (end, writer) = look.cancel(&rt);
    assert!(rt; end == LookEnd::Cancelled);
    let Ok(begun) = OwnedWriteWait::begin(&rt, writer, 2) else {
        return Err(no_memory());
    };
    let Begun::Waiting(mut wait) = begun else {
        return Err(Fail::new("the write ended at once"));
    };
    assert!(rt; reader.try_read(&rt) == ReadReply::Item(1));
    assert!(rt; task.poll(&mut wait) == Poll::Ready(WriteEnd::Done));
    let mut writer = wait.into_writer();
    assert!(rt; writer_count(&rt, &mut writer) == 1);
    Ok(())
}

#[test]
fn a_wait_that_is_dropped_is_ended_by_its_number(rt: HostRuntime) -> Result<(), Fail> {
    let (channel, mut pass) = Channel::unbounded(rt.alloc(), 2)?;
    let mut writer = writer_of(&channel, &mut pass)?;
    let mut reader = Reader::new(&channel, pass);
    drop(pending_read(&rt, &mut reader)?);
    let ended = reader.call(&rt, ChannelCall::Cancel(0));
    assert!(rt; matches!(ended, Ok((ChannelReply::Cancelled, _))));
    drop(pending_read(&rt, &mut reader)?);
    assert!(rt; matches!(writer.try_write(&rt, 5), Ok(WriteReply::Done)));
    assert!(rt; reader.try_read(&rt) == ReadReply::Empty);
    let ended = reader.call(&rt, ChannelCall::Cancel(1));
    assert!(rt; matches!(ended, Ok((ChannelReply::Item(5), _))));
    Ok(())
}

#[test]
fn a_look_is_ready_though_its_item_is_gone(rt: HostRuntime) -> Result<(), Fail> {
    let (channel, mut pass) = Channel::unbounded(rt.alloc(), 3)?;
    let mut writer = writer_of(&channel, &mut pass)?;
    let mut other = reader_of(&channel, &mut pass)?;
    let mut reader = Reader::new(&channel, pass);
    let look = pending_look_read(&rt, &mut reader)?;
    assert!(rt; matches!(writer.try_write(&rt, 3), Ok(WriteReply::Done)));
    assert!(rt; other.try_read(&rt) == ReadReply::Item(3));
    let Ok(end) = block_on(&rt, look) else {
        return Err(Fail::new("the look was not run"));
    };
    assert!(rt; end == LookEnd::Ready(true));
    assert!(rt; reader.try_read(&rt) == ReadReply::Empty);
    Ok(())
}
