// A write that waits and owns its writer, as a future.
ghost use Rattle.std.specs.Prelude.{◌≡◌, true, false, ⊤, IfOk, IfErr};
ghost use Rattle.futures.specs.Task.{Covers, Keeps};
ghost use Rattle.futures.specs.Poll.{IfReady, OnPending};
ghost use Rattle.ho_base.specs.Marks.{Mark};
ghost use Rattle.ho_model.specs.declared.marks.CallMark.TheVariants.{BeginWrite, Cancel};
ghost use Rattle.channel_core.specs.Marks.{reply_mark};
ghost use Rattle.passes.specs.Calls.{IsSamePass};
ghost use Rattle.channel_wait.specs.Ends.{IfEnded, IfWaiting, HandsBack, write_reply};
ghost use Rattle.channel_wait.specs.Open.{IsOpenOwnedWriteWait, IsOpenOwnedWriteWaitOf};
ghost use Rattle.channel_wait.specs.Waits.{Answered, LeavesWait, Unbegun, IsPending, Polled};

use crate::begins::begin_write;
use crate::ends::{Begun, WriteEnd, write_end};
use crate::polls::{cancel, try_poll};
use channels::Writer;
use futures::Future;
use futures::task::{Context, Poll};
use ho_base::{Item, Unpaid};
use std::sync::Wait;

/// A write that stands in the channel until its answer is fetched, with the writer that began it.
///
/// It gives the writer back, and all its contracts speak of it. Dropping it makes no entry: the wait still
/// stands under its number, and its item enters once there is room; [`into_writer`](Self::into_writer) gives the writer up first, whose
/// call `Cancel` with that number can end it.
#[must_use]
#[derive(Drop)]
pub struct OwnedWriteWait<'c, T: Item> {
    writer: Writer<'c, T>,
    number: u64,
    /// It gave its answer.
    is_over: bool,
}

impl<'c, T: Item> OwnedWriteWait<'c, T> {
    /// Begins a write by one entry. It waits where the entry says so, and else has ended: then the writer
    /// comes back with the end.
    ///
    /// For want of memory there is no entry, and the writer and the item come back.
    pub fn begin<R: Wait>(
        rt: &R,
        writer: Writer<'c, T>,
        item: T,
    ) -> Result<
        Begun<OwnedWriteWait<'c, T>, (WriteEnd<T>, Writer<'c, T>)>,
        Unpaid<(Writer<'c, T>, T)>,
    >
        ensures waiting { IfOk result (IfWaiting (λ w. LeavesWait T.priority_of (BeginWrite (T.mark item)) writer.entry w.writer w.number × IsOpenOwnedWriteWaitOf (T.mark item) w)) }
        ensures ended { IfOk result (IfEnded (λ end. Answered T.priority_of (BeginWrite (T.mark item)) writer.entry end.1 (reply_mark T.mark (write_reply end.0)))) }
        ensures handed_back { IfOk result (IfEnded (λ end. HandsBack T.mark (T.mark item) end.0)) }
        ensures unpaid { IfErr result (λ unpaid. Unbegun T.priority_of (BeginWrite (T.mark item)) writer.entry unpaid.back.0 × (unpaid.back.1 ≡ item)) }
    {
        let mut writer = writer;
        match begin_write(rt, &mut writer, item) {
            Ok(begun) => match begun {
                Begun::Ended(end) => Ok(Begun::Ended((end, writer))),
                Begun::Waiting(number) => Ok(Begun::Waiting(OwnedWriteWait {
                    writer,
                    number,
                    is_over: false,
                })),
            },
            Err(unpaid) => Err(Unpaid {
                back: (writer, unpaid.back),
            }),
        }
    }

    /// The number that the begin gave.
    pub fn number(&self) -> u64
        ensures { result ≡ self.now.number }
    {
        self.number
    }

    /// Gives the wait up by one entry: `Cancelled` with its item exactly where it was unanswered there, and else
    /// its answer. The writer comes back. Takes no memory.
    pub fn cancel<R: Wait>(self, rt: &R) -> (WriteEnd<T>, Writer<'c, T>)
        requires { IsOpenOwnedWriteWait self }
        ensures handed_back { (x : Mark) → IsOpenOwnedWriteWaitOf x self.entry → HandsBack T.mark x result.0 }
        ensures cancelled { Answered T.priority_of (Cancel self.entry.number) self.entry.writer result.1 (reply_mark T.mark (write_reply result.0)) }
    {
        let OwnedWriteWait {
            mut writer,
            number,
            is_over: _,
        } = self;
        let end = write_end(cancel(rt, &mut writer, number));
        (end, writer)
    }

    /// The writer, as the wait left it. A wait that has not given its answer still stands under its
    /// number.
    pub fn into_writer(self) -> Writer<'c, T>
        ensures { result ≡ self.entry.writer }
    {
        let OwnedWriteWait {
            writer,
            number: _,
            is_over: _,
        } = self;
        writer
    }
}

impl<'c, T: Item> Future for OwnedWriteWait<'c, T> {
    type Output = WriteEnd<T>;

    ghost can_poll = { IsOpenOwnedWriteWait };

    /// Tries one `Poll` of the wait, and takes no memory. Where it has no answer it has asked to be
    /// polled again, so that no other call has to wake it.
    fn poll(&mut self, cx: &mut Context<'_>) -> Poll<WriteEnd<T>>
        requires { IsOpenOwnedWriteWait self.old }
        ensures value { IfReady result (λ _. ⊤) }
        ensures same_outputs { OnPending result ((x : WriteEnd T) → ⊤ → ⊤) }
        ensures again { OnPending result (IsOpenOwnedWriteWait self.new) }
        ensures registered { OnPending result (Covers cx.new (λ _. ⊥)) }
        ensures kept { Keeps cx.old cx.new }
        ensures asked { OnPending result (cx.new.is_woken ≡ true) }

        ensures handed_back { (x : Mark) → IsOpenOwnedWriteWaitOf x self.old → IfReady result (HandsBack T.mark x) }
        ensures same_item { (x : Mark) → IsOpenOwnedWriteWaitOf x self.old → OnPending result (IsOpenOwnedWriteWaitOf x self.new) }
        ensures number { self.new.number ≡ self.old.number }
        ensures pass { IsSamePass self.old.writer self.new.writer }
        ensures ready { IfReady result (λ end. Polled T.priority_of self.old.writer self.new.writer self.old.number (reply_mark T.mark (write_reply end))) }
        ensures pending { OnPending result (IsPending T.priority_of self.old.writer self.new.writer self.old.number) }
    {
        let Some(reply) = try_poll(&mut self.writer, self.number) else {
            return cx.yield_now();
        };
        self.is_over = true;
        Poll::Ready(write_end(reply))
    }
}
