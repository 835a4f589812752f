// A look for room that waits and owns its writer, as a future.
ghost use Rattle.std.specs.Prelude.{◌≡◌, true, false, ⊤, IfOk, IfErr};
ghost use Rattle.futures.specs.Task.{Covers, Keeps};
ghost use Rattle.futures.specs.Poll.{IfReady, OnPending};
ghost use Rattle.ho_model.specs.declared.marks.CallMark.TheVariants.{BeginLookWrite, Cancel};
ghost use Rattle.passes.specs.Calls.{IsSamePass};
ghost use Rattle.channel_wait.specs.Ends.{IfEnded, IfWaiting, look_mark};
ghost use Rattle.channel_wait.specs.Open.{IsOpenOwnedWriteLook};
ghost use Rattle.channel_wait.specs.Waits.{Answered, LeavesWait, Unbegun, IsPending, Polled};

use crate::begins::begin_look_write;
use crate::ends::{Begun, LookEnd, look_end};
use crate::polls::{cancel, try_poll};
use channels::Writer;
use futures::Future;
use futures::task::{Context, Poll};
use ho_base::{Item, Unpaid};
use std::sync::Wait;

/// A look for room that stands in the channel until its answer is fetched, with the writer that began it.
///
/// It gives the writer back, and all its contracts speak of it. Dropping it makes no entry: the wait still
/// stands under its number; [`into_writer`](Self::into_writer) gives the writer up first, whose
/// call `Cancel` with that number can end it.
#[must_use]
#[derive(Drop)]
pub struct OwnedWriteLook<'c, T: Item> {
    writer: Writer<'c, T>,
    number: u64,
    /// It gave its answer.
    is_over: bool,
}

impl<'c, T: Item> OwnedWriteLook<'c, T> {
    /// Begins a look for room by one entry. It waits where the entry says so, and else has ended: then the writer
    /// comes back with the end.
    ///
    /// For want of memory there is no entry, and the writer comes back.
    pub fn begin<R: Wait>(
        rt: &R,
        writer: Writer<'c, T>,
    ) -> Result<Begun<OwnedWriteLook<'c, T>, (LookEnd, Writer<'c, T>)>, Unpaid<Writer<'c, T>>>
        ensures waiting { IfOk result (IfWaiting (λ w. LeavesWait T.priority_of BeginLookWrite writer.entry w.writer w.number × IsOpenOwnedWriteLook w)) }
        ensures ended { IfOk result (IfEnded (λ end. Answered T.priority_of BeginLookWrite writer.entry end.1 (look_mark end.0))) }
        ensures unpaid { IfErr result (λ unpaid. Unbegun T.priority_of BeginLookWrite writer.entry unpaid.back) }
    {
        let mut writer = writer;
        match begin_look_write(rt, &mut writer) {
            Ok(begun) => match begun {
                Begun::Ended(end) => Ok(Begun::Ended((end, writer))),
                Begun::Waiting(number) => Ok(Begun::Waiting(OwnedWriteLook {
                    writer,
                    number,
                    is_over: false,
                })),
            },
            Err(_) => Err(Unpaid { back: writer }),
        }
    }

    /// The number that the begin gave.
    pub fn number(&self) -> u64
        ensures { result ≡ self.now.number }
    {
        self.number
    }

    /// Gives the wait up by one entry: `Cancelled` exactly where it was unanswered there, and else
    /// its answer. The writer comes back. Takes no memory.
    pub fn cancel<R: Wait>(self, rt: &R) -> (LookEnd, Writer<'c, T>)
        requires { IsOpenOwnedWriteLook self }
        ensures cancelled { Answered T.priority_of (Cancel self.entry.number) self.entry.writer result.1 (look_mark result.0) }
    {
        let OwnedWriteLook {
            mut writer,
            number,
            is_over: _,
        } = self;
        let end = look_end(cancel(rt, &mut writer, number));
        (end, writer)
    }

    /// The writer, as the wait left it. A wait that has not given its answer still stands under its
    /// number.
    pub fn into_writer(self) -> Writer<'c, T>
        ensures { result ≡ self.entry.writer }
    {
        let OwnedWriteLook {
            writer,
            number: _,
            is_over: _,
        } = self;
        writer
    }
}

impl<'c, T: Item> Future for OwnedWriteLook<'c, T> {
    type Output = LookEnd;

    ghost can_poll = { IsOpenOwnedWriteLook };

    /// Tries one `Poll` of the wait, and takes no memory. Where it has no answer it has asked to be
    /// polled again, so that no other call has to wake it.
    fn poll(&mut self, cx: &mut Context<'_>) -> Poll<LookEnd>
        requires { IsOpenOwnedWriteLook self.old }
        ensures value { IfReady result (λ _. ⊤) }
        ensures same_outputs { OnPending result ((x : LookEnd) → ⊤ → ⊤) }
        ensures again { OnPending result (IsOpenOwnedWriteLook self.new) }
        ensures registered { OnPending result (Covers cx.new (λ _. ⊥)) }
        ensures kept { Keeps cx.old cx.new }
        ensures asked { OnPending result (cx.new.is_woken ≡ true) }

        ensures number { self.new.number ≡ self.old.number }
        ensures pass { IsSamePass self.old.writer self.new.writer }
        ensures ready { IfReady result (λ end. Polled T.priority_of self.old.writer self.new.writer self.old.number (look_mark end)) }
        ensures pending { OnPending result (IsPending T.priority_of self.old.writer self.new.writer self.old.number) }
    {
        let Some(reply) = try_poll(&mut self.writer, self.number) else {
            return cx.yield_now();
        };
        self.is_over = true;
        Poll::Ready(look_end(reply))
    }
}
