// The calls on a wait that stands, from either side of the channel.
ghost use Rattle.std.specs.Prelude.{IfSome, IfNone};
ghost use Rattle.ho_model.specs.declared.marks.CallMark.TheVariants.{Poll, Cancel};
ghost use Rattle.ho_model.specs.declared.marks.ReplyMark.TheVariants.{Waiting};
ghost use Rattle.channel_core.specs.Marks.{reply_mark};
ghost use Rattle.passes.specs.Calls.{IsSamePass};
ghost use Rattle.turn_lock.specs.Calls.{Makes};
ghost use Rattle.channel_wait.specs.Standing.{StaysOpen, IsAnswer, IsEnd};
ghost use Rattle.channel_wait.specs.Waits.{IsPending};

use channel_core::{ChannelCall, ChannelReply};
use channels::{ChannelTry, Side};
use ho_base::Marked;
use std::hint;
use std::sync::Wait;

/// How many spins a poll takes before it says that there is no answer.
const LINGER: u32 = 512;

/// Spins for a moment. An executor polls again at once, and would take turn after turn from the very
/// call that its wait is for.
fn linger() {
    for _ in 0..LINGER {
        hint::spin_loop();
    }
}

/// Tries one poll of the wait, and says its answer, if that came.
pub(crate) fn try_poll<T: Marked, S: Side<T>>(side: &mut S, number: u64) -> Option<ChannelReply<T>>
    ensures same { IsSamePass (S.pass side.old) (S.pass side.new) }
    ensures taken { IfSome result (λ reply. Makes T.priority_of (S.pass side.old) (Poll number) (reply_mark T.mark reply) (S.pass side.new)) }
    ensures pending { IfNone result (IsPending T.priority_of (S.pass side.old) (S.pass side.new) number) }
    ensures stays_open { IfNone result (StaysOpen (S.pass side.old) (S.pass side.new) number) }
    ensures answer { IfSome result (λ reply. IsAnswer (S.pass side.old) number (reply_mark T.mark reply)) }
{
    let ChannelTry::Answer(reply, _) = side.try_side_call(ChannelCall::Poll(number)) else {
        linger();
        return None;
    };
    let ChannelReply::Waiting(_) = reply else {
        return Some(reply);
    };
    linger();
    None
}

/// Polls the wait once, and says its answer, if it has one.
pub(crate) fn poll<T: Marked, S: Side<T>, R: Wait>(
    rt: &R,
    side: &mut S,
    number: u64,
) -> Option<ChannelReply<T>>
    ensures same { IsSamePass (S.pass side.old) (S.pass side.new) }
    ensures stands { IfNone result (Makes T.priority_of (S.pass side.old) (Poll number) (Waiting number) (S.pass side.new)) }
    ensures stays_open { IfNone result (StaysOpen (S.pass side.old) (S.pass side.new) number) }
    ensures answered { IfSome result (λ reply. Makes T.priority_of (S.pass side.old) (Poll number) (reply_mark T.mark reply) (S.pass side.new)) }
    ensures answer { IfSome result (λ reply. IsAnswer (S.pass side.old) number (reply_mark T.mark reply)) }
{
    let Ok((reply, _)) = side.side_call(rt, ChannelCall::Poll(number)) else {
        unreachable!()
    };
    let ChannelReply::Waiting(_) = reply else {
        return Some(reply);
    };
    None
}

/// Gives the wait up, and says its answer, or that it had none.
pub(crate) fn cancel<T: Marked, S: Side<T>, R: Wait>(
    rt: &R,
    side: &mut S,
    number: u64,
) -> ChannelReply<T>
    ensures same { IsSamePass (S.pass side.old) (S.pass side.new) }
    ensures cancelled { Makes T.priority_of (S.pass side.old) (Cancel number) (reply_mark T.mark result) (S.pass side.new) }
    ensures end { IsEnd (S.pass side.old) number (reply_mark T.mark result) }
{
    let Ok((reply, _)) = side.side_call(rt, ChannelCall::Cancel(number)) else {
        unreachable!()
    };
    reply
}
