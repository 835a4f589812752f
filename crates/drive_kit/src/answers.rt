// Which replies a call can have.
ghost use Rattle.std.specs.Prelude.{◌≡◌};
ghost use Rattle.drive_kit.specs.Answers.{to_put, to_add, to_find, to_steal, to_take, to_count, to_snap, to_ask, to_complete, to_write, to_begin_write, to_read, to_begin_read, to_look, to_end, to_poll, to_cancel, to_add_of, to_take_of, fits};

use crate::calls::Kind;
use ho_model::{Call, Reply};

// To an enqueue, and to an add to a bag.
fn is_to_put(reply: &Reply) -> bool
    ensures { result ≡ to_put reply.now }
{
    matches!(reply, Reply::Done | Reply::Full)
}

// To an add to a blocking collection.
fn is_to_add(reply: &Reply) -> bool
    ensures { result ≡ to_add reply.now }
{
    matches!(reply, Reply::Done | Reply::Full | Reply::Closed)
}

// To a dequeue and a peek.
fn is_to_find(reply: &Reply) -> bool
    ensures { result ≡ to_find reply.now }
{
    matches!(reply, Reply::Item(_) | Reply::Empty)
}

// To a take from a bag.
fn is_to_steal(reply: &Reply) -> bool
    ensures { result ≡ to_steal reply.now }
{
    matches!(reply, Reply::ItemFrom(_, _) | Reply::Empty)
}

// To a take from a blocking collection.
fn is_to_take(reply: &Reply) -> bool
    ensures { result ≡ to_take reply.now }
{
    matches!(reply, Reply::Item(_) | Reply::Empty | Reply::Ended)
}

// To a count.
fn is_to_count(reply: &Reply) -> bool
    ensures { result ≡ to_count reply.now }
{
    matches!(reply, Reply::Count(_))
}

// To a snapshot.
fn is_to_snap(reply: &Reply) -> bool
    ensures { result ≡ to_snap reply.now }
{
    matches!(reply, Reply::Numbers(_))
}

// To a question, and to a completion of a channel.
fn is_to_ask(reply: &Reply) -> bool
    ensures { result ≡ to_ask reply.now }
{
    matches!(reply, Reply::Flag(_))
}

// To a completion for adding.
fn is_to_complete(reply: &Reply) -> bool
    ensures { result ≡ to_complete reply.now }
{
    matches!(reply, Reply::Done)
}

// To a write.
fn is_to_write(reply: &Reply) -> bool
    ensures { result ≡ to_write reply.now }
{
    matches!(
        reply,
        Reply::Done | Reply::Dropped(_) | Reply::Full | Reply::Refused(_, _)
    )
}

// To a write that may wait.
fn is_to_begin_write(reply: &Reply) -> bool
    ensures { result ≡ to_begin_write reply.now }
{
    matches!(
        reply,
        Reply::Done | Reply::Dropped(_) | Reply::Refused(_, _) | Reply::Waiting(_)
    )
}

// To a read.
fn is_to_read(reply: &Reply) -> bool
    ensures { result ≡ to_read reply.now }
{
    matches!(reply, Reply::Item(_) | Reply::Empty | Reply::ClosedWith(_))
}

// To a read that may wait.
fn is_to_begin_read(reply: &Reply) -> bool
    ensures { result ≡ to_begin_read reply.now }
{
    matches!(
        reply,
        Reply::Item(_) | Reply::ClosedWith(_) | Reply::Waiting(_)
    )
}

// To a look for an item or for room, which may wait.
fn is_to_look(reply: &Reply) -> bool
    ensures { result ≡ to_look reply.now }
{
    matches!(
        reply,
        Reply::Ready(_) | Reply::Faulted(_) | Reply::Waiting(_)
    )
}

// To a wait that has ended.
fn is_to_end(reply: &Reply) -> bool
    ensures { result ≡ to_end reply.now }
{
    matches!(
        reply,
        Reply::Done
            | Reply::Refused(_, _)
            | Reply::Item(_)
            | Reply::ClosedWith(_)
            | Reply::Ready(_)
            | Reply::Faulted(_)
            | Reply::Unknown
    )
}

// To a poll.
fn is_to_poll(reply: &Reply) -> bool
    ensures { result ≡ to_poll reply.now }
{
    match reply {
        Reply::Waiting(_) => true,
        _ => is_to_end(reply),
    }
}

// To a cancel.
fn is_to_cancel(reply: &Reply) -> bool
    ensures { result ≡ to_cancel reply.now }
{
    match reply {
        Reply::Cancelled | Reply::CancelledWrite(_) => true,
        _ => is_to_end(reply),
    }
}

// To an add.
fn is_to_add_of(kind: Kind, reply: &Reply) -> bool
    ensures { result ≡ to_add_of kind reply.now }
{
    match kind {
        Kind::Blocking => is_to_add(reply),
        _ => is_to_put(reply),
    }
}

// To a take.
fn is_to_take_of(kind: Kind, reply: &Reply) -> bool
    ensures { result ≡ to_take_of kind reply.now }
{
    match kind {
        Kind::Bag => is_to_steal(reply),
        _ => is_to_take(reply),
    }
}

// Whether a call on such an object can have a reply.
#[tactic(auto, unfolding(crate::specs::Answers::fits))]
pub(crate) fn has_reply(kind: Kind, call: Call, reply: &Reply) -> bool
    ensures { result ≡ fits kind call reply.now }
{
    match call {
        Call::Enq(_) => is_to_put(reply),
        Call::Deq | Call::Peek => is_to_find(reply),
        Call::Count => is_to_count(reply),
        Call::Snap => is_to_snap(reply),
        Call::Add(_) => is_to_add_of(kind, reply),
        Call::Take => is_to_take_of(kind, reply),
        Call::Write(_) => is_to_write(reply),
        Call::Read => is_to_read(reply),
        Call::BeginWrite(_) => is_to_begin_write(reply),
        Call::BeginRead => is_to_begin_read(reply),
        Call::BeginLookWrite | Call::BeginLookRead => is_to_look(reply),
        Call::Poll(_) => is_to_poll(reply),
        Call::Cancel(_) => is_to_cancel(reply),
        Call::CompleteWith(_) | Call::Completed | Call::AddingCompleted => is_to_ask(reply),
        Call::CompleteAdding => is_to_complete(reply),
    }
}
