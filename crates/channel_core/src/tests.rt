// The worked rows of the channel, as calls of `step`.
ghost use Rattle.std.specs.Prelude.{◌≡◌, ◌+◌, ◌^◌, ◌<◌, ◌≤◌};

use super::*;
use ho_base::Fault;
use ho_model::{Machine, Mode};
use std::test::Fail;

type Call = ChannelCall<u64>;

type Reply = ChannelReply<u64>;

/// Whether a channel gives this reply to a call.
fn answers(state: &mut ChannelState<u64>, caller: u32, call: Call, reply: Reply) -> bool
    requires caller { caller < state.old.callers }
    requires short { state.old.steps < 2 ^ 60 }
    ensures callers { state.new.callers ≡ state.old.callers }
    ensures steps { state.new.steps ≤ state.old.steps + 1 }
{
    match state.step(caller, call) {
        Ok(given) => given == reply,
        Err(_) => false,
    }
}

fn nine() -> Option<Fault> {
    Fault::new(9)
}

/// Three writes to a channel of capacity 2, and two reads.
fn fills(
    rt: &HostRuntime,
    mode: Mode,
    third: Reply,
    first: u64,
    second: u64,
) -> Result<bool, Fail> {
    let mut state = ChannelState::bounded(rt.alloc(), 2, mode, 1)?;
    Ok(
        answers(&mut state, 0, Call::Write(1), Reply::Done)
            && answers(&mut state, 0, Call::Write(2), Reply::Done)
            && answers(&mut state, 0, Call::Write(3), third)
            && answers(&mut state, 0, Call::Read, Reply::Item(first))
            && answers(&mut state, 0, Call::Read, Reply::Item(second)),
    )
}

#[test]
fn a_write_to_a_full_channel_goes_by_the_mode(rt: HostRuntime) -> Result<(), Fail> {
    assert!(rt; fills(&rt, Mode::Wait, Reply::Full(3), 1, 2)?);
    assert!(rt; fills(&rt, Mode::DropNewest, Reply::Dropped(2), 1, 3)?);
    assert!(rt; fills(&rt, Mode::DropOldest, Reply::Dropped(1), 2, 3)?);
    assert!(rt; fills(&rt, Mode::DropWrite, Reply::Dropped(3), 1, 2)?);
    Ok(())
}

#[test]
fn a_completion_refuses_the_write_that_waits(rt: HostRuntime) -> Result<(), Fail> {
    let mut state = ChannelState::bounded(rt.alloc(), 1, Mode::Wait, 1)?;
    assert!(rt; answers(&mut state, 0, Call::Write(1), Reply::Done));
    assert!(rt; answers(&mut state, 0, Call::BeginWrite(2), Reply::Waiting(0)));
    assert!(rt; answers(&mut state, 0, Call::Complete(nine()), Reply::Flag(true)));
    assert!(rt; answers(&mut state, 0, Call::Complete(None), Reply::Flag(false)));
    assert!(rt; answers(&mut state, 0, Call::Poll(0), Reply::Refused(nine(), 2)));
    assert!(rt; answers(&mut state, 0, Call::Completed, Reply::Flag(false)));
    assert!(rt; answers(&mut state, 0, Call::Read, Reply::Item(1)));
    assert!(rt; answers(&mut state, 0, Call::Completed, Reply::Flag(true)));
    assert!(rt; answers(&mut state, 0, Call::Read, Reply::Closed(nine())));
    Ok(())
}

#[test]
fn a_cancel_before_the_hand_over_takes_nothing(rt: HostRuntime) -> Result<(), Fail> {
    let mut state = ChannelState::unbounded(rt.alloc(), 1)?;
    assert!(rt; answers(&mut state, 0, Call::BeginRead, Reply::Waiting(0)));
    assert!(rt; answers(&mut state, 0, Call::Cancel(0), Reply::Cancelled));
    assert!(rt; answers(&mut state, 0, Call::Write(5), Reply::Done));
    assert!(rt; answers(&mut state, 0, Call::Count, Reply::Count(1)));
    Ok(())
}

#[test]
fn a_cancel_after_the_hand_over_gives_the_item(rt: HostRuntime) -> Result<(), Fail> {
    let mut state = ChannelState::unbounded(rt.alloc(), 1)?;
    assert!(rt; answers(&mut state, 0, Call::BeginRead, Reply::Waiting(0)));
    assert!(rt; answers(&mut state, 0, Call::Write(5), Reply::Done));
    assert!(rt; answers(&mut state, 0, Call::Cancel(0), Reply::Item(5)));
    assert!(rt; answers(&mut state, 0, Call::Count, Reply::Count(0)));
    assert!(rt; answers(&mut state, 0, Call::Cancel(0), Reply::Unknown));
    Ok(())
}

#[test]
fn looks_are_told_of_items_and_of_room(rt: HostRuntime) -> Result<(), Fail> {
    let mut state = ChannelState::bounded(rt.alloc(), 1, Mode::Wait, 1)?;
    assert!(rt; answers(&mut state, 0, Call::BeginLookRead, Reply::Waiting(0)));
    assert!(rt; answers(&mut state, 0, Call::Write(3), Reply::Done));
    assert!(rt; answers(&mut state, 0, Call::Poll(0), Reply::Ready(true)));
    assert!(rt; answers(&mut state, 0, Call::BeginLookWrite, Reply::Waiting(1)));
    assert!(rt; answers(&mut state, 0, Call::Read, Reply::Item(3)));
    assert!(rt; answers(&mut state, 0, Call::Poll(1), Reply::Ready(true)));
    assert!(rt; answers(&mut state, 0, Call::Complete(None), Reply::Flag(true)));
    assert!(rt; answers(&mut state, 0, Call::BeginLookRead, Reply::Ready(false)));
    assert!(rt; answers(&mut state, 0, Call::BeginLookWrite, Reply::Ready(false)));
    Ok(())
}

#[test]
fn of_two_reads_that_wait_the_older_is_served(rt: HostRuntime) -> Result<(), Fail> {
    let mut state = ChannelState::unbounded(rt.alloc(), 2)?;
    assert!(rt; answers(&mut state, 0, Call::BeginRead, Reply::Waiting(0)));
    assert!(rt; answers(&mut state, 1, Call::BeginRead, Reply::Waiting(0)));
    assert!(rt; answers(&mut state, 0, Call::Write(5), Reply::Done));
    assert!(rt; answers(&mut state, 1, Call::Poll(0), Reply::Waiting(0)));
    assert!(rt; answers(&mut state, 0, Call::Poll(0), Reply::Item(5)));
    Ok(())
}

#[test]
fn a_read_lets_in_the_write_that_waits(rt: HostRuntime) -> Result<(), Fail> {
    let mut state = ChannelState::bounded(rt.alloc(), 1, Mode::Wait, 1)?;
    assert!(rt; answers(&mut state, 0, Call::Write(1), Reply::Done));
    assert!(rt; answers(&mut state, 0, Call::BeginWrite(2), Reply::Waiting(0)));
    assert!(rt; answers(&mut state, 0, Call::Read, Reply::Item(1)));
    assert!(rt; answers(&mut state, 0, Call::Poll(0), Reply::Done));
    assert!(rt; answers(&mut state, 0, Call::Count, Reply::Count(1)));
    Ok(())
}

#[test]
fn a_cancelled_write_leaves_its_item_outside(rt: HostRuntime) -> Result<(), Fail> {
    let mut state = ChannelState::bounded(rt.alloc(), 1, Mode::Wait, 1)?;
    assert!(rt; answers(&mut state, 0, Call::Write(1), Reply::Done));
    assert!(rt; answers(&mut state, 0, Call::BeginWrite(2), Reply::Waiting(0)));
    assert!(rt; answers(&mut state, 0, Call::Cancel(0), Reply::CancelledWrite(2)));
    assert!(rt; answers(&mut state, 0, Call::Peek, Reply::Shown(1)));
    assert!(rt; answers(&mut state, 0, Call::Read, Reply::Item(1)));
    assert!(rt; answers(&mut state, 0, Call::Peek, Reply::Empty));
    assert!(rt; answers(&mut state, 0, Call::Read, Reply::Empty));
    Ok(())
}

#[test]
fn begins_that_need_no_wait_answer_at_once_and_count(rt: HostRuntime) -> Result<(), Fail> {
    let mut state = ChannelState::unbounded(rt.alloc(), 1)?;
    assert!(rt; answers(&mut state, 0, Call::BeginLookWrite, Reply::Ready(true)));
    assert!(rt; answers(&mut state, 0, Call::BeginWrite(7), Reply::Done));
    assert!(rt; answers(&mut state, 0, Call::BeginLookRead, Reply::Ready(true)));
    assert!(rt; answers(&mut state, 0, Call::BeginRead, Reply::Item(7)));
    assert!(rt; answers(&mut state, 0, Call::BeginRead, Reply::Waiting(4)));
    Ok(())
}

#[test]
fn a_fault_is_told_to_every_look(rt: HostRuntime) -> Result<(), Fail> {
    let mut state = ChannelState::bounded(rt.alloc(), 1, Mode::Wait, 1)?;
    let Some(fault) = Fault::new(65_535) else {
        return Ok(())
    };
    assert!(rt; answers(&mut state, 0, Call::BeginLookRead, Reply::Waiting(0)));
    assert!(rt; answers(&mut state, 0, Call::BeginRead, Reply::Waiting(1)));
    assert!(rt;
        answers(
            &mut state,
            0,
            Call::Complete(Some(fault)),
            Reply::Flag(true)
        )
    );
    assert!(rt; answers(&mut state, 0, Call::Poll(0), Reply::Faulted(fault)));
    assert!(rt; answers(&mut state, 0, Call::Poll(1), Reply::Closed(Some(fault))));
    assert!(rt; answers(&mut state, 0, Call::BeginLookWrite, Reply::Faulted(fault)));
    assert!(rt;
        answers(
            &mut state,
            0,
            Call::Write(1),
            Reply::Refused(Some(fault), 1)
        )
    );
    Ok(())
}

#[test]
fn the_largest_channel_is_made(rt: HostRuntime) -> Result<(), Fail> {
    let mut state = ChannelState::bounded(rt.alloc(), 65_536, Mode::Wait, 64)?;
    assert!(rt; answers(&mut state, 63, Call::Write(1), Reply::Done));
    Ok(())
}
