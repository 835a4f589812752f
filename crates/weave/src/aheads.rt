// The first call left of each kind, which tells whether a call left goes before another.
ghost use Rattle.std.specs.Prelude.{◌≡◌, ◌+◌, ◌∷◌, nat_le, IfOk, map};
ghost use Rattle.std.specs.List.{list_all};
ghost use Rattle.weave.specs.Aheads.{ahead_of, aheads_of, can_go, first_may_go, first_of, has_kind, leaves_free, may_go_before};
ghost use Rattle.weave.specs.Cursors.{parts_left};
ghost use Rattle.weave.specs.declared.made.Made.{Made};

use crate::cursors::Cursor;
use crate::made::Made;
use ho_base::{NoMemory, Receipt};
use std::alloc::Global;

#[derive(Clone, Copy)]
enum Kind {
    Enqueued,
    Dequeued,
    Peeked,
    Looked,
}

/// The receipt of the first call left of each kind, in one part. The receipts of one kind never fall
/// within a part, so these tell of all that is left.
#[derive(Clone, Copy)]
pub(crate) struct Ahead {
    enqueued: Option<Receipt>,
    dequeued: Option<Receipt>,
    peeked: Option<Receipt>,
    looked: Option<Receipt>,
}

// Whether position q is room or more above p.
fn is_above_room(p: u64, room: u32, q: u64) -> bool
    ensures { result ≡ nat_le (p + room) q }
{
    if q < p {
        return false;
    }
    u64::from(room) <= q - p
}

fn may_go_before(room: u32, x: Receipt, y: Receipt) -> bool
    ensures { result ≡ may_go_before room x y }
{
    match (x, y) {
        (Receipt::Enqueued { position: p, .. }, Receipt::Enqueued { position: q, .. }) => p < q,
        (Receipt::Enqueued { position: p, .. }, Receipt::Dequeued { position: q }) => p <= q,
        (Receipt::Enqueued { position: p, .. }, Receipt::Peeked { position: q }) => p <= q,
        (Receipt::Enqueued { position: p, .. }, Receipt::Looked { tail, .. }) => p < tail,
        (Receipt::Dequeued { position: p }, Receipt::Enqueued { position: q, .. }) => {
            is_above_room(p, room, q)
        }
        (Receipt::Dequeued { position: p }, Receipt::Dequeued { position: q }) => p < q,
        (Receipt::Dequeued { position: p }, Receipt::Peeked { position: q }) => p < q,
        (Receipt::Dequeued { position: p }, Receipt::Looked { head, .. }) => p < head,
        (Receipt::Peeked { position: p }, Receipt::Dequeued { position: q }) => p <= q,
        (Receipt::Looked { tail, .. }, Receipt::Enqueued { position: q, .. }) => tail <= q,
        (Receipt::Looked { head, .. }, Receipt::Dequeued { position: q }) => head <= q,
        _ => false,
    }
}

fn has_kind(kind: Kind, receipt: Receipt) -> bool
    ensures { result ≡ has_kind kind receipt }
{
    match (kind, receipt) {
        (Kind::Enqueued, Receipt::Enqueued { .. }) => true,
        (Kind::Dequeued, Receipt::Dequeued { .. }) => true,
        (Kind::Peeked, Receipt::Peeked { .. }) => true,
        (Kind::Looked, Receipt::Looked { .. }) => true,
        _ => false,
    }
}

fn first_of(kind: Kind, made: &[Made]) -> Option<Receipt>
    ensures { result ≡ first_of kind made.now }
{
    for one in made {
        if has_kind(kind, one.receipt) {
            return Some(one.receipt);
        }
    }
    None
}

fn ahead_of(made: &[Made]) -> Ahead
    ensures { result ≡ ahead_of made.now }
{
    Ahead {
        enqueued: first_of(Kind::Enqueued, made),
        dequeued: first_of(Kind::Dequeued, made),
        peeked: first_of(Kind::Peeked, made),
        looked: first_of(Kind::Looked, made),
    }
}

// What is ahead of each part at first.
pub(crate) fn all_aheads(alloc: Global, cursors: &[Cursor<'_>]) -> Result<Vec<Ahead>, NoMemory>
    ensures { IfOk result (λ v. v.items ≡ aheads_of (parts_left cursors.now)) }
{
    let mut aheads = Vec::with_capacity(alloc, cursors.len())?;
    for cursor in cursors {
        aheads.push(ahead_of(cursor.left))?;
    }
    Ok(aheads)
}

// What is ahead once the first call is taken. Only its own kind is looked for anew, from where it
// stood: so all looking goes along a part once for each kind.
pub(crate) fn ahead_behind(ahead: Ahead, taken: Receipt, left: &[Made]) -> Ahead
    requires { (m : Made) × (m.receipt ≡ taken) × (ahead ≡ ahead_of (m ∷ left.now)) }
    ensures { result ≡ ahead_of left.now }
{
    let mut behind = ahead;
    match taken {
        Receipt::Enqueued { .. } => behind.enqueued = first_of(Kind::Enqueued, left),
        Receipt::Dequeued { .. } => behind.dequeued = first_of(Kind::Dequeued, left),
        Receipt::Peeked { .. } => behind.peeked = first_of(Kind::Peeked, left),
        Receipt::Looked { .. } => behind.looked = first_of(Kind::Looked, left),
        Receipt::Place { .. } => {}
    }
    behind
}

fn first_may_go(room: u32, first: Option<Receipt>, y: Receipt) -> bool
    ensures { result ≡ first_may_go room first y }
{
    match first {
        Some(x) => may_go_before(room, x, y),
        None => false,
    }
}

// Whether no call of a part goes before this one.
fn leaves_free(room: u32, y: Receipt, ahead: &Ahead) -> bool
    ensures { result ≡ leaves_free room y ahead.now }
{
    if first_may_go(room, ahead.enqueued, y) {
        return false;
    }
    if first_may_go(room, ahead.dequeued, y) {
        return false;
    }
    if first_may_go(room, ahead.peeked, y) {
        return false;
    }
    !first_may_go(room, ahead.looked, y)
}

fn is_free(room: u32, aheads: &[Ahead], y: Receipt) -> bool
    ensures { result ≡ list_all (leaves_free room y) aheads.now }
{
    aheads.iter().all(|ahead| leaves_free(room, y, ahead))
}

// Whether a part has a next call, and no call left goes before it.
pub(crate) fn can_go(room: u32, aheads: &[Ahead], cursor: &Cursor<'_>) -> bool
    ensures { result ≡ can_go room aheads.now cursor.now.left.now }
{
    if cursor.left.is_empty() {
        return false;
    }
    is_free(room, aheads, cursor.left[0].receipt)
}
