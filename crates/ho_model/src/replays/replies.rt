// Replies are compared by their parts.
ghost use Rattle.std.specs.Prelude.{◌≡◌};
ghost use Rattle.ho_model.specs.Entries.{parts_of, same_reply};
ghost use Rattle.ho_model.specs.Written.{giving};
ghost use Rattle.ho_model.specs.Judging.{agrees};

use crate::histories::Reply;
use std::slice::from_ref;

/// A reply taken apart: the place of its kind among the kinds, a number and a list.
#[derive(Drop)]
struct Parts<'a> {
    kind: u32,
    number: u64,
    list: &'a [u64],
}

fn make_parts<'a>(kind: u32, number: u64, list: &'a [u64]) -> Parts<'a>
    ensures kind { result.kind ≡ kind }
    ensures number { result.number ≡ number }
    ensures list { result.list.now ≡ list.now }
{
    Parts { kind, number, list }
}

fn parts_of(reply: &Reply) -> Parts<'_>
    ensures kind { result.kind ≡ (parts_of (giving reply.now)).kind }
    ensures number { result.number ≡ (parts_of (giving reply.now)).number }
    ensures list { result.list.now ≡ (parts_of (giving reply.now)).list }
{
    match reply {
        Reply::Done => make_parts(0, 0, &[]),
        Reply::Dropped(item) => make_parts(1, 0, from_ref(item)),
        Reply::Full => make_parts(2, 0, &[]),
        Reply::Refused(fault, item) => make_parts(3, *fault as u64, from_ref(item)),
        Reply::Item(item) => make_parts(4, 0, from_ref(item)),
        Reply::ItemFrom(item, from) => make_parts(5, *from as u64, from_ref(item)),
        Reply::Empty => make_parts(7, 0, &[]),
        Reply::Ended => make_parts(8, 0, &[]),
        Reply::Closed => make_parts(9, 0, &[]),
        Reply::ClosedWith(fault) => make_parts(10, *fault as u64, &[]),
        Reply::Count(count) => make_parts(11, *count, &[]),
        Reply::Numbers(items) => make_parts(12, 0, items.as_slice()),
        Reply::Waiting(wait) => make_parts(13, *wait, &[]),
        Reply::Ready(flag) => make_parts(14, *flag as u64, &[]),
        Reply::Faulted(fault) => make_parts(15, *fault as u64, &[]),
        Reply::Cancelled => make_parts(16, 0, &[]),
        Reply::CancelledWrite(item) => make_parts(17, 0, from_ref(item)),
        Reply::Unknown => make_parts(18, 0, &[]),
        Reply::Flag(flag) => make_parts(19, *flag as u64, &[]),
    }
}

/// Whether two replies are the same.
pub(super) fn same_reply(said: &Reply, written: &Reply) -> bool
    ensures { result ≡ same_reply (giving said.now) (giving written.now) }
{
    let a = parts_of(said);
    let b = parts_of(written);
    a.kind == b.kind && a.number == b.number && a.list == b.list
}

/// Whether a written reply is the one that was answered, if one was.
pub(super) fn agrees(said: &Option<Reply>, written: &Reply) -> bool
    ensures { result ≡ agrees said.now written.now }
{
    match said {
        None => false,
        Some(said) => same_reply(said, written),
    }
}
