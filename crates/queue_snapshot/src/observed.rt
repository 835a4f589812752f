// A snapshot whose items are read one by one.
ghost use Rattle.std.specs.Prelude.{◌≡◌, ◌+◌, length, None};
ghost use Rattle.queue_tries.specs.Windows.{given_of};
ghost use Rattle.concurrent_queue.specs.Queues.{IsOf};
ghost use Rattle.concurrent_queue.specs.Windows.{Gives};
ghost use Rattle.queue_snapshot.specs.Snapshots.{Opens, GivesNext, span_of};
ghost use Rattle.queue_snapshot.specs.Observing.{IsLive, IsSame, list_of};

use crate::items::next_item;
use crate::opening::open;
use concurrent_queue::{ConcurrentQueue, Next, QueuePass, Receipt, Window};
use std::sync::Wait;

/// All items that a queue had at one step, which are read one by one, whatever other callers do meanwhile.
///
/// Contracts see of it the list of the items and how many of them were given. It borrows the pass, and holds
/// places of the queue until their items are given, so it can't be dropped: it is ended.
pub struct Observed<'a> {
    pass: &'a mut QueuePass,
    queue: &'a ConcurrentQueue,
    window: Window,
    receipt: Receipt,
    /// How many items are still to come.
    left: u64,
}

/// How many items lie from the head up to the tail of a receipt.
fn span(receipt: Receipt) -> u64
    ensures { result ≡ span_of receipt }
{
    match receipt {
        Receipt::Looked { head, tail } => tail.saturating_sub(head),
        _ => 0,
    }
}

/// Takes a snapshot of all items that the queue has at one step (`GetEnumerator`). Takes no memory.
///
/// It makes one entry of the caller, whose receipt is `Looked`. It waits for other callers that open a
/// segment or count. A caller that has made as many calls as it may waits for good.
pub fn observe<'a, R: Wait>(
    rt: &R,
    queue: &'a ConcurrentQueue,
    pass: &'a mut QueuePass,
) -> Observed<'a>
    requires { IsOf queue.now pass.old }
    ensures same_reference { result.pass.ghost_name ≡ pass.entry.ghost_name }
    ensures live { IsLive result }
    ensures queue { result.queue.now ≡ queue.now }
    ensures observes { Opens queue.now.first_len pass.old result.pass.now result.window result.receipt }
{
    let (window, receipt) = open(rt, queue, pass);
    let left = span(receipt);
    Observed {
        pass,
        queue,
        window,
        receipt,
        left,
    }
}

impl<'a> Observed<'a> {
    /// The receipt of its entry.
    pub fn receipt(&self) -> Receipt
        ensures { result ≡ self.now.receipt }
    {
        self.receipt
    }

    /// How many items are still to come.
    pub fn left(&self) -> u64
        requires { IsLive self.now }
        ensures { result + given_of self.now.window ≡ length (list_of self.now) }
    {
        self.left
    }

    /// The next item, or None where all are given. It makes no entry, and takes no memory. It waits for
    /// another caller that has enqueued the item and not put it into its slot yet.
    pub fn next<R: Wait>(&mut self, rt: &R) -> Option<u64>
        requires { IsLive self.old }
        ensures live { IsLive self.new }
        ensures same { IsSame self.old self.new }
        ensures gives { GivesNext self.old.pass.now self.old.window self.new.pass.now self.new.window result }
    {
        match next_item(rt, self.queue, &mut *self.pass, &mut self.window) {
            Some(item) => {
                self.left -= 1;
                Some(item)
            }
            None => None,
        }
    }

    /// Looks at the next item once: `InFlight` where another caller has enqueued it and not put it into its
    /// slot yet. It makes no entry, and takes no memory.
    pub fn next_once(&mut self) -> Next
        requires { IsLive self.old }
        ensures live { IsLive self.new }
        ensures same { IsSame self.old self.new }
        ensures gives { Gives self.old.pass.now self.old.window self.new.pass.now self.new.window result }
    {
        match self.queue.window_next(&mut *self.pass, &mut self.window) {
            Next::Item(item) => {
                self.left -= 1;
                Next::Item(item)
            }
            Next::End => Next::End,
            Next::InFlight => Next::InFlight,
        }
    }

    /// Ends it. It makes no entry, and takes no memory.
    pub fn end(self)
        requires { IsLive self }
        ensures { self.exit.0.now ≡ record self.entry.pass.now { window = None } }
    {
        let Observed {
            pass,
            queue,
            window,
            receipt: _,
            left: _,
        } = self;
        queue.window_end(pass, window)
    }
}
