// The loops: with looks at a token, and without.
ghost use Rattle.std.specs.Prelude.{◌≡◌, ◌+◌, true, false, IfSome, IfNone};
ghost use Rattle.ho_model.specs.declared.marks.CallMark.TheVariants.{Poll};
ghost use Rattle.ho_model.specs.declared.marks.ReplyMark.TheVariants.{Waiting};
ghost use Rattle.passes.specs.Numbers.{HasNumber};
ghost use Rattle.passes.specs.Calls.{IsSamePass};
ghost use Rattle.turn_lock.specs.Calls.{Makes};
ghost use Rattle.wait_loop.specs.Standing.{StaysOpen, IsEnd};
ghost use Rattle.wait_loop.specs.Own.{last_call};
ghost use Rattle.wait_loop.specs.Loops.{PollsToAnswer, PollsToEnd};

use crate::waits::Waits;
use cancel_flag::CancelToken;
use std::sync::Wait;

/// Looks at the token once. Where that read 1 the wait is given up, and else it is polled once.
fn turn<K: Waits<S, Y>, S, Y: Drop, R: Wait>(
    rt: &R,
    waits: &K,
    side: &mut S,
    number: u64,
    token: &mut CancelToken,
) -> Option<Y>
    ensures same { IsSamePass (K.pass side.old) (K.pass side.new) }
    ensures looked { token.new ≡ record token.old { looks = token.old.looks + 1; seen = token.new.seen } }
    ensures for_good { token.old.seen ≡ true → token.new.seen ≡ true }
    ensures unset { IfNone result (token.new.seen ≡ false) }
    ensures stands { IfNone result (Makes K.priority (K.pass side.old) (Poll number) (Waiting number) (K.pass side.new)) }
    ensures stays_open { IfNone result (StaysOpen K.awaits (K.pass side.old) (K.pass side.new) number) }
    ensures ended { IfSome result (λ reply. Makes K.priority (K.pass side.old) (last_call token.new.seen number) (K.mark reply) (K.pass side.new)) }
    ensures end { IfSome result (λ reply. IsEnd K.awaits K.answers K.gives_up (K.pass side.old) number (K.mark reply)) }
{
    if token.is_cancelled(rt) {
        return Some(waits.cancel(rt, side, number));
    }
    waits.poll(rt, side, number)
}

/// Polls a wait until it has its answer, or gives it up once the token is set. Each poll is one entry.
///
/// The token is looked at once before each entry. Between them it pauses.
pub fn wait_out<K: Waits<S, Y>, S, Y: Drop, R: Wait>(
    rt: &R,
    waits: &K,
    side: &mut S,
    number: u64,
    token: &mut CancelToken,
) -> Y
    requires { HasNumber (K.pass side.old).held (K.pass side.old).caller }
    ensures same { IsSamePass (K.pass side.old) (K.pass side.new) }
    ensures ended { PollsToEnd K.awaits K.priority K.answers K.gives_up (K.pass side.old) (K.pass side.new) number
        token.old token.new (K.mark result) }
{
    let mut nap = waits.nap();
    for _ in rt.forever() {
        if let Some(reply) = turn(rt, waits, side, number, token) {
            waits.wake(side, &mut nap);
            return reply;
        }
        waits.pause(rt, side, &mut nap);
    }
    unreachable!()
}

/// Polls a wait until it has its answer. Each poll is one entry. Between them it pauses.
pub fn wait_out_without_token<K: Waits<S, Y>, S, Y: Drop, R: Wait>(
    rt: &R,
    waits: &K,
    side: &mut S,
    number: u64,
) -> Y
    requires { HasNumber (K.pass side.old).held (K.pass side.old).caller }
    ensures same { IsSamePass (K.pass side.old) (K.pass side.new) }
    ensures answered { PollsToAnswer K.awaits K.priority K.answers (K.pass side.old) (K.pass side.new) number (K.mark result) }
{
    let mut nap = waits.nap();
    for _ in rt.forever() {
        if let Some(reply) = waits.poll(rt, side, number) {
            waits.wake(side, &mut nap);
            return reply;
        }
        waits.pause(rt, side, &mut nap);
    }
    unreachable!()
}
