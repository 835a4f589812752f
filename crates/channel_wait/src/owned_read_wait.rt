// A read that waits and owns its reader, as a future.
ghost use Rattle.std.specs.Prelude.{◌≡◌, true, false, ⊤, IfOk, IfErr};
ghost use Rattle.futures.specs.Task.{Covers, Keeps};
ghost use Rattle.futures.specs.Poll.{IfReady, OnPending};
ghost use Rattle.ho_model.specs.declared.marks.CallMark.TheVariants.{BeginRead, Cancel};
ghost use Rattle.channel_core.specs.Marks.{reply_mark};
ghost use Rattle.passes.specs.Calls.{IsSamePass};
ghost use Rattle.channel_wait.specs.Ends.{IfEnded, IfWaiting, read_reply};
ghost use Rattle.channel_wait.specs.Open.{IsOpenOwnedReadWait};
ghost use Rattle.channel_wait.specs.Waits.{Answered, LeavesWait, Unbegun, IsPending, Polled};

use crate::begins::begin_read;
use crate::ends::{Begun, ReadEnd, read_end};
use crate::polls::{cancel, try_poll};
use channels::Reader;
use futures::Future;
use futures::task::{Context, Poll};
use ho_base::{Item, Unpaid};
use std::sync::Wait;

/// A read that stands in the channel until its answer is fetched, with the reader that began it.
///
/// It gives the reader back, and all its contracts speak of it. Dropping it makes no entry: the wait still
/// stands under its number and takes the next item; [`into_reader`](Self::into_reader) gives the reader up first, whose
/// call `Cancel` with that number can end it.
#[must_use]
#[derive(Drop)]
pub struct OwnedReadWait<'c, T: Item> {
    reader: Reader<'c, T>,
    number: u64,
    /// It gave its answer.
    is_over: bool,
}

impl<'c, T: Item> OwnedReadWait<'c, T> {
    /// Begins a read by one entry. It waits where the entry says so, and else has ended: then the reader
    /// comes back with the end.
    ///
    /// For want of memory there is no entry, and the reader comes back.
    pub fn begin<R: Wait>(
        rt: &R,
        reader: Reader<'c, T>,
    ) -> Result<Begun<OwnedReadWait<'c, T>, (ReadEnd<T>, Reader<'c, T>)>, Unpaid<Reader<'c, T>>>
        ensures waiting { IfOk result (IfWaiting (λ w. LeavesWait T.priority_of BeginRead reader.entry w.reader w.number × IsOpenOwnedReadWait w)) }
        ensures ended { IfOk result (IfEnded (λ end. Answered T.priority_of BeginRead reader.entry end.1 (reply_mark T.mark (read_reply end.0)))) }
        ensures unpaid { IfErr result (λ unpaid. Unbegun T.priority_of BeginRead reader.entry unpaid.back) }
    {
        let mut reader = reader;
        match begin_read(rt, &mut reader) {
            Ok(begun) => match begun {
                Begun::Ended(end) => Ok(Begun::Ended((end, reader))),
                Begun::Waiting(number) => Ok(Begun::Waiting(OwnedReadWait {
                    reader,
                    number,
                    is_over: false,
                })),
            },
            Err(_) => Err(Unpaid { back: reader }),
        }
    }

    /// The number that the begin gave.
    pub fn number(&self) -> u64
        ensures { result ≡ self.now.number }
    {
        self.number
    }

    /// Gives the wait up by one entry: `Cancelled` exactly where it was unanswered there, and else
    /// its answer. The reader comes back. Takes no memory.
    pub fn cancel<R: Wait>(self, rt: &R) -> (ReadEnd<T>, Reader<'c, T>)
        requires { IsOpenOwnedReadWait self }
        ensures cancelled { Answered T.priority_of (Cancel self.entry.number) self.entry.reader result.1 (reply_mark T.mark (read_reply result.0)) }
    {
        let OwnedReadWait {
            mut reader,
            number,
            is_over: _,
        } = self;
        let end = read_end(cancel(rt, &mut reader, number));
        (end, reader)
    }

    /// The reader, as the wait left it. A wait that has not given its answer still stands under its
    /// number.
    pub fn into_reader(self) -> Reader<'c, T>
        ensures { result ≡ self.entry.reader }
    {
        let OwnedReadWait {
            reader,
            number: _,
            is_over: _,
        } = self;
        reader
    }
}

impl<'c, T: Item> Future for OwnedReadWait<'c, T> {
    type Output = ReadEnd<T>;

    ghost can_poll = { IsOpenOwnedReadWait };

    /// Tries one `Poll` of the wait, and takes no memory. Where it has no answer it has asked to be
    /// polled again, so that no other call has to wake it.
    fn poll(&mut self, cx: &mut Context<'_>) -> Poll<ReadEnd<T>>
        requires { IsOpenOwnedReadWait self.old }
        ensures value { IfReady result (λ _. ⊤) }
        ensures same_outputs { OnPending result ((x : ReadEnd T) → ⊤ → ⊤) }
        ensures again { OnPending result (IsOpenOwnedReadWait self.new) }
        ensures registered { OnPending result (Covers cx.new (λ _. ⊥)) }
        ensures kept { Keeps cx.old cx.new }
        ensures asked { OnPending result (cx.new.is_woken ≡ true) }

        ensures number { self.new.number ≡ self.old.number }
        ensures pass { IsSamePass self.old.reader self.new.reader }
        ensures ready { IfReady result (λ end. Polled T.priority_of self.old.reader self.new.reader self.old.number (reply_mark T.mark (read_reply end))) }
        ensures pending { OnPending result (IsPending T.priority_of self.old.reader self.new.reader self.old.number) }
    {
        let Some(reply) = try_poll(&mut self.reader, self.number) else {
            return cx.yield_now();
        };
        self.is_over = true;
        Poll::Ready(read_end(reply))
    }
}
