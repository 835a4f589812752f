// Takes from any of several collections.
ghost use Rattle.std.specs.Prelude.{◌≡◌, []};
ghost use Rattle.blocking_collection.specs.Several.{AllOf, TriedTake};
ghost use Rattle.blocking_collection.specs.SeveralWaits.{TakenAny};

use crate::collection::BlockingCollection;
use crate::singles;
use crate::singles::TakeReply;
use cancel_flag::CancelToken;
use ho_base::Item;
use pauses::Pause;
use std::sync::Wait;
use turn_lock::Pass;

/// What a take from any of several collections comes to.
#[derive(Debug, PartialEq, Eq, Drop)]
pub enum AnyTake<T> {
    /// An item of the collection at this place.
    Index(usize, T),
    /// None of them has an item, and one may get one. Only `try_take_any` answers so.
    NoneUsed,
    /// There are no collections.
    NoCollection,
    /// Each of them has ended.
    Ended,
    /// The token asked to stop after none had an item. Only `take_any` answers so.
    Cancelled,
}

/// Takes an item from the first of the collections that has one (`TryTakeFromAny`). The passes are
/// those of the collections, in the same order. Takes no memory.
pub fn try_take_any<T: Item, R: Wait>(
    rt: &R,
    collections: &[BlockingCollection<T>],
    passes: &mut [Pass],
) -> AnyTake<T>
    requires { AllOf collections.now passes.old }
    ensures tried { TriedTake T.priority_of T.mark (λ j. []) passes.old passes.new result }
    ensures still { AllOf collections.now passes.new }
{
    let mut all_ended = true;
    for i in 0..collections.len() {
        match singles::try_take(rt, &collections[i], &mut passes[i]) {
            TakeReply::Item(item) => return AnyTake::Index(i, item),
            TakeReply::Empty => all_ended = false,
            TakeReply::Ended => {}
            TakeReply::Cancelled => unreachable!(),
        }
    }
    if collections.is_empty() {
        AnyTake::NoCollection
    } else if all_ended {
        AnyTake::Ended
    } else {
        AnyTake::NoneUsed
    }
}

/// Takes an item from any of the collections, and tries again while none has one and one may get one
/// (`TakeFromAny`). The token is looked at after each round over all of them, and at no other time.
/// One that is set does not refuse an item that is there. Takes no memory.
pub fn take_any<T: Item, R: Wait>(
    rt: &R,
    collections: &[BlockingCollection<T>],
    passes: &mut [Pass],
    token: &mut CancelToken,
) -> AnyTake<T>
    requires { AllOf collections.now passes.old }
    ensures word { token.new.word ≡ token.old.word }
    ensures taken { TakenAny T.priority_of T.mark token.old token.new passes.old passes.new result }
    ensures still { AllOf collections.now passes.new }
{
    let mut pause = Pause::new();
    for _ in rt.forever() {
        match try_take_any(rt, collections, passes) {
            AnyTake::NoneUsed => {
                if token.is_cancelled(rt) {
                    return AnyTake::Cancelled;
                }
            }
            AnyTake::Index(i, item) => return AnyTake::Index(i, item),
            AnyTake::Ended => return AnyTake::Ended,
            AnyTake::NoCollection => return AnyTake::NoCollection,
            AnyTake::Cancelled => unreachable!(),
        }
        pause.take(rt);
    }
    unreachable!()
}
