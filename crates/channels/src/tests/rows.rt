// Worked rows, by one caller, and by two that take turns.
ghost use Rattle.std.specs.Prelude.{◌≡◌};

use crate::{Channel, ChannelTry, MakeRefused, ReadReply, Reader, WriteReply, Writer};
use channel_core::{ChannelCall, ChannelReply, ChannelState};
use ho_base::{Fault, Receipt};
use ho_model::{Machine, Mode};
use std::alloc::Global;
use std::sync::Wait;
use std::test::Fail;
use turn_lock::{Attempt, Pass, Shared};

fn is_at(receipt: Receipt, place: u64) -> bool {
    matches!(receipt, Receipt::Place { number } if number == place)
}

fn no_memory() -> Fail {
    Fail::new("no memory")
}

#[test]
fn a_whole_pass_is_never_busy(rt: HostRuntime) -> Result<(), Fail> {
    let state: ChannelState<u64> = ChannelState::unbounded(rt.alloc(), 1)?;
    let Ok((shared, mut pass)) = Shared::new(rt.alloc(), state, 1) else {
        return Err(no_memory());
    };
    let answer = shared.try_call(&mut pass, ChannelCall::Count);
    assert!(rt;
        matches!(answer, Attempt::Answer(ChannelReply::Count(0), receipt) if is_at(receipt, 0))
    );
    Ok(())
}

#[test]
fn two_callers_hand_over_one_item(rt: HostRuntime) -> Result<(), Fail> {
    let state: ChannelState<u64> = ChannelState::bounded(rt.alloc(), 1, Mode::Wait, 2)?;
    let Ok((shared, mut a)) = Shared::new(rt.alloc(), state, 2) else {
        return Err(no_memory());
    };
    assert!(rt; a.has_spare());
    let mut b = shared.split(&mut a);
    let written = shared.try_call(&mut b, ChannelCall::Write(4));
    let Attempt::Answer(ChannelReply::Done, Receipt::Place { number: 0 }) = written else {
        return Err(Fail::new("the write is not the first entry"));
    };
    let read = shared.call(&rt, &mut a, ChannelCall::Read);
    let Ok((ChannelReply::Item(4), Receipt::Place { number: 1 })) = read else {
        return Err(Fail::new("the read does not take the item"));
    };
    shared.join(&mut a, b);
    assert!(rt; a.is_whole());
    let mut closed = shared.close(a);
    assert!(rt;
        matches!(
            closed.step(0, ChannelCall::Count),
            Ok(ChannelReply::Count(0))
        )
    );
    Ok(())
}

#[test]
fn a_capacity_is_1_to_65536(rt: HostRuntime) {
    let bad = |capacity: u32| {
        let made: Result<(Channel<u64>, Pass), MakeRefused> = Channel::bounded(
            rt.alloc(),
            capacity,
            Mode::Wait,
            1,
        );
        matches!(made, Err(MakeRefused::BadCapacity))
    };
    assert!(rt; bad(0));
    assert!(rt; bad(65_537));
    let made = |capacity: u32| {
        let made: Result<(Channel<u64>, Pass), MakeRefused> = Channel::bounded(
            rt.alloc(),
            capacity,
            Mode::Wait,
            1,
        );
        made.is_ok()
    };
    assert!(rt; made(1));
    assert!(rt; made(65_536));
}

/// Three writes to a channel of capacity 2, and two reads.
fn fills<R: Wait>(
    rt: &R,
    alloc: Global,
    mode: Mode,
    third: WriteReply<u64>,
    first: u64,
    second: u64,
) -> Result<bool, Fail> {
    let (channel, pass) = Channel::bounded(alloc, 2, mode, 1)?;
    let mut writer = Writer::new(&channel, pass);
    let written = writer.try_write(rt, 1)? == WriteReply::Done
        && writer.try_write(rt, 2)? == WriteReply::Done
        && writer.try_write(rt, 3)? == third;
    let mut reader = Reader::new(&channel, writer.into_pass());
    Ok(
        written
            && reader.try_read(rt) == ReadReply::Item(first)
            && reader.try_read(rt) == ReadReply::Item(second),
    )
}

#[test]
fn a_write_to_a_full_channel_goes_by_the_mode(rt: HostRuntime) -> Result<(), Fail> {
    assert!(rt; fills(&rt, rt.alloc(), Mode::Wait, WriteReply::Full(3), 1, 2)?);
    assert!(rt;
        fills(
            &rt,
            rt.alloc(),
            Mode::DropNewest,
            WriteReply::Dropped(2),
            1,
            3
        )?
    );
    assert!(rt;
        fills(
            &rt,
            rt.alloc(),
            Mode::DropOldest,
            WriteReply::Dropped(1),
            2,
            3
        )?
    );
    assert!(rt;
        fills(
            &rt,
            rt.alloc(),
            Mode::DropWrite,
            WriteReply::Dropped(3),
            1,
            2
        )?
    );
    Ok(())
}

/// Three writes to a prioritized channel, and what its reads show and take.
fn orders<R: Wait>(rt: &R, alloc: Global) -> Result<bool, Fail> {
    let (channel, pass) = Channel::prioritized(alloc, 1)?;
    let mut writer = Writer::new(&channel, pass);
    let written = writer.try_write(rt, 2001u64)? == WriteReply::Done
        && writer.try_write(rt, 1003)? == WriteReply::Done
        && writer.try_write(rt, 1002)? == WriteReply::Done;
    let mut reader = Reader::new(&channel, writer.into_pass());
    Ok(
        written
            && reader.peek(rt) == Some(1003)
            && reader.try_read(rt) == ReadReply::Item(1003)
            && reader.try_read(rt) == ReadReply::Item(1002)
            && reader.try_read(rt) == ReadReply::Item(2001)
            && reader.peek(rt).is_none(),
    )
}

#[test]
fn items_leave_by_priority(rt: HostRuntime) -> Result<(), Fail> {
    assert!(rt; orders(&rt, rt.alloc())?);
    Ok(())
}

#[test]
fn a_completed_channel_can_be_read_to_its_end(rt: HostRuntime) -> Result<(), Fail> {
    let fault = Fault::new(9);
    let (channel, pass) = Channel::unbounded(rt.alloc(), 1)?;
    let mut writer = Writer::new(&channel, pass);
    assert!(rt; writer.try_write(&rt, 5u64)? == WriteReply::Done);
    assert!(rt; writer.try_complete(&rt, fault));
    assert!(rt; !writer.try_complete(&rt, None));
    assert!(rt; writer.try_write(&rt, 6)? == WriteReply::Refused(fault, 6));
    let mut reader = Reader::new(&channel, writer.into_pass());
    assert!(rt; !reader.is_completed(&rt));
    assert_eq!(rt; reader.count(&rt), 1);
    assert!(rt; reader.try_read(&rt) == ReadReply::Item(5));
    assert!(rt; reader.is_completed(&rt));
    assert!(rt; reader.try_read(&rt) == ReadReply::Closed(fault));
    Ok(())
}

#[test]
fn two_passes_call_one_channel(rt: HostRuntime) -> Result<(), Fail> {
    let (channel, mut pass) = Channel::unbounded(rt.alloc(), 2)?;
    assert!(rt; pass.has_spare());
    let mut other = channel.split(&mut pass);
    let written = channel.call(&rt, &mut pass, ChannelCall::Write(7u64));
    assert!(rt; matches!(written, Ok((ChannelReply::Done, receipt)) if is_at(receipt, 0)));
    let read = channel.try_call(&mut other, ChannelCall::Read);
    assert!(rt;
        matches!(read, ChannelTry::Answer(ChannelReply::Item(7), receipt) if is_at(receipt, 1))
    );
    channel.join(&mut pass, other);
    assert!(rt; pass.is_whole());
    Ok(())
}

#[test]
fn a_writer_and_a_reader_try_once(rt: HostRuntime) -> Result<(), Fail> {
    let (channel, mut pass) = Channel::bounded(rt.alloc(), 1, Mode::Wait, 2)?;
    assert!(rt; pass.has_spare());
    let other = channel.split(&mut pass);
    let mut writer = Writer::new(&channel, pass);
    let written = writer.try_call(ChannelCall::Write(7u64));
    assert!(rt;
        matches!(&written, ChannelTry::Answer(ChannelReply::Done, receipt) if is_at(*receipt, 0))
    );
    let full = writer.try_call(ChannelCall::Write(8u64));
    assert!(rt;
        matches!(&full, ChannelTry::Answer(ChannelReply::Full(8), receipt) if is_at(*receipt, 1))
    );
    let mut reader = Reader::new(&channel, other);
    let read = reader.try_call(ChannelCall::Read);
    assert!(rt;
        matches!(&read, ChannelTry::Answer(ChannelReply::Item(7), receipt) if is_at(*receipt, 2))
    );
    Ok(())
}
