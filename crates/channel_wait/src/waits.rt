// The waits of a channel, as the loops of `wait_loop` poll them.
ghost use Rattle.std.specs.Prelude.{IfSome, IfNone};
ghost use Rattle.ho_model.specs.declared.marks.CallMark.TheVariants.{Poll, Cancel};
ghost use Rattle.ho_model.specs.declared.marks.ReplyMark.TheVariants.{Waiting};
ghost use Rattle.channel_core.specs.Marks.{reply_mark};
ghost use Rattle.channel_laws.specs.Kinds.{AnswersBegin, CancelsBegin};
ghost use Rattle.passes.specs.Calls.{IsSamePass};
ghost use Rattle.turn_lock.specs.Calls.{Makes};
ghost use Rattle.channel_wait.specs.Standing.{Awaits, StaysOpen, IsAnswer, IsEnd};

use crate::polls::{cancel, poll};
use channel_core::ChannelReply;
use channels::Side;
use ho_base::Marked;
use pauses::{Nap, Want};
use std::sync::Wait;
use wait_loop::Waits;

/// The waits of a channel that want this, from either side of it.
#[derive(Clone, Copy)]
pub(crate) struct ChannelWaits {
    pub(crate) want: Want,
}

impl<T: Marked, S: Side<T>> Waits<S, ChannelReply<T>> for ChannelWaits {
    ghost pass = { S.Side.pass };

    ghost mark = { reply_mark T.Marked.mark };

    ghost priority = { T.Marked.priority_of };

    ghost awaits = { Awaits };

    ghost answers = { AnswersBegin };

    ghost gives_up = { CancelsBegin };

    fn poll<R: Wait>(&self, rt: &R, side: &mut S, number: u64) -> Option<ChannelReply<T>> {
        poll(rt, side, number)
    }

    fn cancel<R: Wait>(&self, rt: &R, side: &mut S, number: u64) -> ChannelReply<T> {
        cancel(rt, side, number)
    }

    fn nap(&self) -> Nap {
        Nap::of_wait(self.want)
    }

    fn pause<R: Wait>(&self, rt: &R, side: &S, nap: &mut Nap) {
        side.nap(rt, nap);
    }

    fn wake(&self, side: &S, nap: &mut Nap) {
        side.wake(nap);
    }
}
