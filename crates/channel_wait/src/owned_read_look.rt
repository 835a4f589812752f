// A look for an item that waits and owns its reader, as a future.
ghost use Rattle.std.specs.Prelude.{◌≡◌, true, false, ⊤, IfOk, IfErr};
ghost use Rattle.futures.specs.Task.{Covers, Keeps};
ghost use Rattle.futures.specs.Poll.{IfReady, OnPending};
ghost use Rattle.ho_model.specs.declared.marks.CallMark.TheVariants.{BeginLookRead, Cancel};
ghost use Rattle.passes.specs.Calls.{IsSamePass};
ghost use Rattle.channel_wait.specs.Ends.{IfEnded, IfWaiting, look_mark};
ghost use Rattle.channel_wait.specs.Open.{IsOpenOwnedReadLook};
ghost use Rattle.channel_wait.specs.Waits.{Answered, LeavesWait, Unbegun, IsPending, Polled};

use crate::begins::begin_look_read;
use crate::ends::{Begun, LookEnd, look_end};
use crate::polls::{cancel, try_poll};
use channels::Reader;
use futures::Future;
use futures::task::{Context, Poll};
use ho_base::{Item, Unpaid};
use std::sync::Wait;

/// A look for an item that stands in the channel until its answer is fetched, with the reader that began it.
///
/// It gives the reader back, and all its contracts speak of it. Dropping it makes no entry: the wait still
/// stands under its number; [`into_reader`](Self::into_reader) gives the reader up first, whose
/// call `Cancel` with that number can end it.
#[must_use]
#[derive(Drop)]
pub struct OwnedReadLook<'c, T: Item> {
    reader: Reader<'c, T>,
    number: u64,
    /// It gave its answer.
    is_over: bool,
}

impl<'c, T: Item> OwnedReadLook<'c, T> {
    /// Begins a look for an item by one entry. It waits where the entry says so, and else has ended: then the reader
    /// comes back with the end.
    ///
    /// For want of memory there is no entry, and the reader comes back.
    pub fn begin<R: Wait>(
        rt: &R,
        reader: Reader<'c, T>,
    ) -> Result<Begun<OwnedReadLook<'c, T>, (LookEnd, Reader<'c, T>)>, Unpaid<Reader<'c, T>>>
        ensures waiting { IfOk result (IfWaiting (λ w. LeavesWait T.priority_of BeginLookRead reader.entry w.reader w.number × IsOpenOwnedReadLook w)) }
        ensures ended { IfOk result (IfEnded (λ end. Answered T.priority_of BeginLookRead reader.entry end.1 (look_mark end.0))) }
        ensures unpaid { IfErr result (λ unpaid. Unbegun T.priority_of BeginLookRead reader.entry unpaid.back) }
    {
        let mut reader = reader;
        match begin_look_read(rt, &mut reader) {
            Ok(begun) => match begun {
                Begun::Ended(end) => Ok(Begun::Ended((end, reader))),
                Begun::Waiting(number) => Ok(Begun::Waiting(OwnedReadLook {
                    reader,
                    number,
                    is_over: false,
                })),
            },
            Err(_) => Err(Unpaid { back: reader }),
        }
    }

    /// The number that the begin gave.
    pub fn number(&self) -> u64
        ensures { result ≡ self.now.number }
    {
        self.number
    }

    /// Gives the wait up by one entry: `Cancelled` exactly where it was unanswered there, and else
    /// its answer. The reader comes back. Takes no memory.
    pub fn cancel<R: Wait>(self, rt: &R) -> (LookEnd, Reader<'c, T>)
        requires { IsOpenOwnedReadLook self }
        ensures cancelled { Answered T.priority_of (Cancel self.entry.number) self.entry.reader result.1 (look_mark result.0) }
    {
        let OwnedReadLook {
            mut reader,
            number,
            is_over: _,
        } = self;
        let end = look_end(cancel(rt, &mut reader, number));
        (end, reader)
    }

    /// The reader, as the wait left it. A wait that has not given its answer still stands under its
    /// number.
    pub fn into_reader(self) -> Reader<'c, T>
        ensures { result ≡ self.entry.reader }
    {
        let OwnedReadLook {
            reader,
            number: _,
            is_over: _,
        } = self;
        reader
    }
}

impl<'c, T: Item> Future for OwnedReadLook<'c, T> {
    type Output = LookEnd;

    ghost can_poll = { IsOpenOwnedReadLook };

    /// Tries one `Poll` of the wait, and takes no memory. Where it has no answer it has asked to be
    /// polled again, so that no other call has to wake it.
    fn poll(&mut self, cx: &mut Context<'_>) -> Poll<LookEnd>
        requires { IsOpenOwnedReadLook self.old }
        ensures value { IfReady result (λ _. ⊤) }
        ensures same_outputs { OnPending result ((x : LookEnd) → ⊤ → ⊤) }
        ensures again { OnPending result (IsOpenOwnedReadLook self.new) }
        ensures registered { OnPending result (Covers cx.new (λ _. ⊥)) }
        ensures kept { Keeps cx.old cx.new }
        ensures asked { OnPending result (cx.new.is_woken ≡ true) }

        ensures number { self.new.number ≡ self.old.number }
        ensures pass { IsSamePass self.old.reader self.new.reader }
        ensures ready { IfReady result (λ end. Polled T.priority_of self.old.reader self.new.reader self.old.number (look_mark end)) }
        ensures pending { OnPending result (IsPending T.priority_of self.old.reader self.new.reader self.old.number) }
    {
        let Some(reply) = try_poll(&mut self.reader, self.number) else {
            return cx.yield_now();
        };
        self.is_over = true;
        Poll::Ready(look_end(reply))
    }
}
