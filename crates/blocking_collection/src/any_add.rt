// Adds to any of several collections.
ghost use Rattle.std.specs.Prelude.{◌≡◌, []};
ghost use Rattle.blocking_collection.specs.Several.{AllOf, Asks, Adds, TriedAdd};
ghost use Rattle.blocking_collection.specs.SeveralWaits.{AddedAny};

use crate::collection::BlockingCollection;
use crate::singles;
use crate::singles::AddReply;
use cancel_flag::CancelToken;
use ho_base::{Item, Unpaid};
use pauses::Pause;
use std::sync::Wait;
use turn_lock::Pass;

/// What an add to any of several collections comes to. An item that is not kept is handed back.
#[derive(Debug, PartialEq, Eq, Drop)]
pub enum AnyAdd<T> {
    /// The collection at this place has it.
    Index(usize),
    /// Each of them was full. Only `try_add_any` answers so.
    NoneUsed(T),
    /// There are no collections.
    NoCollection(T),
    /// Adding to the collection at this place has ended, and it is the first that said so.
    Closed(usize, T),
    /// The token asked to stop after each of them was full. Only `add_any` answers so.
    Cancelled(T),
}

/// Adds an item to the first of the collections that is not full, unless adding to one of them has
/// ended (`TryAddToAny`). The passes are those of the collections, in the same order.
///
/// Each collection in order is first asked whether adding has ended, and then each in order is tried.
/// For want of memory, which only an add without a bound or to a bag can meet, the item comes back:
/// the collections before that one were full, and these entries stand.
pub fn try_add_any<T: Item, R: Wait>(
    rt: &R,
    collections: &[BlockingCollection<T>],
    passes: &mut [Pass],
    item: T,
) -> Result<AnyAdd<T>, Unpaid<T>>
    requires { AllOf collections.now passes.old }
    ensures tried { TriedAdd T.priority_of T.mark item [] passes.old passes.new result }
    ensures still { AllOf collections.now passes.new }
{
    if collections.is_empty() {
        return Ok(AnyAdd::NoCollection(item));
    }
    if let Some(i) = first_closed(rt, collections, passes) {
        return Ok(AnyAdd::Closed(i, item));
    }
    add_first(rt, collections, passes, item)
}

/// Adds an item to any of the collections, and tries again while all are full (`AddToAny`). The token
/// is looked at after each round over all of them, and at no other time: over no collections never.
///
/// A token that is set does not refuse an item for which there is room. For want of memory the entries
/// of earlier rounds stand too.
pub fn add_any<T: Item, R: Wait>(
    rt: &R,
    collections: &[BlockingCollection<T>],
    passes: &mut [Pass],
    item: T,
    token: &mut CancelToken,
) -> Result<AnyAdd<T>, Unpaid<T>>
    requires { AllOf collections.now passes.old }
    ensures word { token.new.word ≡ token.old.word }
    ensures added { AddedAny T.priority_of T.mark token.old token.new item passes.old passes.new result }
    ensures still { AllOf collections.now passes.new }
{
    let mut given = item;
    let mut pause = Pause::new();
    for _ in rt.forever() {
        match try_add_any(rt, collections, passes, given) {
            Ok(AnyAdd::NoneUsed(back)) => {
                if token.is_cancelled(rt) {
                    return Ok(AnyAdd::Cancelled(back));
                }
                given = back;
            }
            Ok(AnyAdd::Index(i)) => return Ok(AnyAdd::Index(i)),
            Ok(AnyAdd::Closed(i, back)) => return Ok(AnyAdd::Closed(i, back)),
            Ok(AnyAdd::NoCollection(back)) => return Ok(AnyAdd::NoCollection(back)),
            Ok(AnyAdd::Cancelled(_)) => unreachable!(),
            Err(unpaid) => return Err(unpaid),
        }
        pause.take(rt);
    }
    unreachable!()
}

/// The first collection for which adding has ended.
fn first_closed<T: Item, R: Wait>(
    rt: &R,
    collections: &[BlockingCollection<T>],
    passes: &mut [Pass],
) -> Option<usize>
    requires { AllOf collections.now passes.old }
    ensures { Asks T.priority_of passes.old passes.new result }
{
    for i in 0..collections.len() {
        if singles::is_adding_completed(rt, &collections[i], &mut passes[i]) {
            return Some(i);
        }
    }
    None
}

/// Adds to the first collection that is not full.
fn add_first<T: Item, R: Wait>(
    rt: &R,
    collections: &[BlockingCollection<T>],
    passes: &mut [Pass],
    item: T,
) -> Result<AnyAdd<T>, Unpaid<T>>
    requires { AllOf collections.now passes.old }
    ensures { Adds T.priority_of T.mark item passes.old passes.new result }
{
    let mut given = item;
    for i in 0..collections.len() {
        match singles::try_add(rt, &collections[i], &mut passes[i], given) {
            Ok(AddReply::Done) => return Ok(AnyAdd::Index(i)),
            Ok(AddReply::Full(back)) => given = back,
            Ok(AddReply::Closed(back)) => return Ok(AnyAdd::Closed(i, back)),
            Ok(AddReply::Cancelled(_)) => unreachable!(),
            Err(unpaid) => return Err(unpaid),
        }
    }
    Ok(AnyAdd::NoneUsed(given))
}
