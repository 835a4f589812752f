// The worked row of priorities, as calls of `step`.
ghost use Rattle.std.specs.Prelude.{◌≡◌, ◌+◌, ◌^◌, ◌<◌, ◌≤◌};

use super::*;
use channel_core::{ChannelCall, ChannelReply};
use ho_base::Fault;
use ho_model::Machine;
use std::test::Fail;

type Call = ChannelCall<u64>;

type Reply = ChannelReply<u64>;

/// Whether a channel gives this reply to a call.
fn answers(state: &mut PriorityState<u64>, caller: u32, call: Call, reply: Reply) -> bool
    requires caller { caller < state.old.callers }
    requires short { state.old.steps < 2 ^ 60 }
    ensures callers { state.new.callers ≡ state.old.callers }
    ensures steps { state.new.steps ≤ state.old.steps + 1 }
{
    match state.step(caller, call) {
        Ok(given) => given == reply,
        Err(_) => false,
    }
}

#[test]
fn items_leave_by_priority_and_then_by_arrival(rt: HostRuntime) -> Result<(), Fail> {
    let mut state = PriorityState::new(rt.alloc(), 1)?;
    assert!(rt; answers(&mut state, 0, Call::Write(2001), Reply::Done));
    assert!(rt; answers(&mut state, 0, Call::Write(1003), Reply::Done));
    assert!(rt; answers(&mut state, 0, Call::Write(1002), Reply::Done));
    assert!(rt; answers(&mut state, 0, Call::Peek, Reply::Shown(1003)));
    assert!(rt; answers(&mut state, 0, Call::Read, Reply::Item(1003)));
    assert!(rt; answers(&mut state, 0, Call::Read, Reply::Item(1002)));
    assert!(rt; answers(&mut state, 0, Call::Read, Reply::Item(2001)));
    assert!(rt; answers(&mut state, 0, Call::Read, Reply::Empty));
    Ok(())
}

#[test]
fn a_read_that_waits_takes_whatever_is_written_first(rt: HostRuntime) -> Result<(), Fail> {
    let mut state = PriorityState::new(rt.alloc(), 2)?;
    assert!(rt; answers(&mut state, 1, Call::BeginRead, Reply::Waiting(0)));
    assert!(rt; answers(&mut state, 0, Call::Write(2001), Reply::Done));
    assert!(rt; answers(&mut state, 0, Call::Write(1001), Reply::Done));
    assert!(rt; answers(&mut state, 1, Call::Poll(0), Reply::Item(2001)));
    assert!(rt; answers(&mut state, 0, Call::Count, Reply::Count(1)));
    assert!(rt;
        answers(
            &mut state,
            0,
            Call::Complete(Fault::new(7)),
            Reply::Flag(true)
        )
    );
    assert!(rt; answers(&mut state, 0, Call::Completed, Reply::Flag(false)));
    assert!(rt; answers(&mut state, 0, Call::Read, Reply::Item(1001)));
    assert!(rt; answers(&mut state, 0, Call::Completed, Reply::Flag(true)));
    assert!(rt; answers(&mut state, 0, Call::Read, Reply::Closed(Fault::new(7))));
    Ok(())
}
