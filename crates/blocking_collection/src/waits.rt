// An add and a take that try again.
ghost use Rattle.std.specs.Prelude.{◌≡◌};
ghost use Rattle.blocking_collection.specs.Waits.{Added, Taken};

use crate::collection::BlockingCollection;
use crate::singles;
use crate::singles::{AddReply, TakeReply};
use cancel_flag::CancelToken;
use ho_base::{Item, Unpaid};
use pauses::{Hears, News, Tries};
use std::sync::Wait;
use turn_lock::Pass;

/// Adds, and tries again while the collection is full. Who finds no memory leaves the room to others.
pub(crate) fn add<T: Item, R: Wait>(
    rt: &R,
    collection: &BlockingCollection<T>,
    pass: &mut Pass,
    item: T,
    token: &mut CancelToken,
    tries: &mut Tries<'_>,
) -> Result<AddReply<T>, Unpaid<T>>
    requires { pass.old.table ≡ collection.now }
    ensures table { pass.new.table ≡ pass.old.table }
    ensures word { token.new.word ≡ token.old.word }
    ensures added { Added T.priority_of T.mark token.old token.new pass.old pass.new item result }
{
    let mut given = item;
    for _ in rt.forever() {
        match singles::try_add(rt, collection, pass, given) {
            Ok(AddReply::Done) => return Ok(AddReply::Done),
            Ok(AddReply::Closed(back)) => return Ok(AddReply::Closed(back)),
            Ok(AddReply::Full(back)) => {
                if token.is_cancelled(rt) {
                    return Ok(AddReply::Cancelled(back));
                }
                given = back;
            }
            Ok(AddReply::Cancelled(_)) => unreachable!(),
            Err(unpaid) => {
                collection.bells.tell(News::Room);
                return Err(unpaid);
            }
        }
        tries.pause(rt);
    }
    unreachable!()
}

/// Takes, and tries again while the collection is empty.
pub(crate) fn take<T: Item, R: Wait>(
    rt: &R,
    collection: &BlockingCollection<T>,
    pass: &mut Pass,
    token: &mut CancelToken,
    tries: &mut Tries<'_>,
) -> TakeReply<T>
    requires { pass.old.table ≡ collection.now }
    ensures table { pass.new.table ≡ pass.old.table }
    ensures word { token.new.word ≡ token.old.word }
    ensures taken { Taken T.priority_of T.mark token.old token.new pass.old pass.new result }
{
    for _ in rt.forever() {
        match singles::try_take(rt, collection, pass) {
            TakeReply::Item(item) => return TakeReply::Item(item),
            TakeReply::Ended => return TakeReply::Ended,
            TakeReply::Empty => {
                if token.is_cancelled(rt) {
                    return TakeReply::Cancelled;
                }
            }
            TakeReply::Cancelled => unreachable!(),
        }
        tries.pause(rt);
    }
    unreachable!()
}
