// Whose turn it is.
ghost use Rattle.std.specs.Prelude.{◌≡◌, length};
ghost use Rattle.weave.specs.Aheads.{IsLeast, lesser};
ghost use Rattle.weave.specs.Cursors.{parts_left};

use crate::aheads::{Ahead, can_go};
use crate::cursors::Cursor;

/// A part that can go on, and its caller.
#[derive(Clone, Copy)]
pub(crate) struct Candidate {
    pub(crate) index: usize,
    caller: u32,
}

fn lesser(best: Option<Candidate>, other: Candidate) -> Candidate
    ensures { result ≡ lesser best other }
{
    let Some(best) = best else {
        return other;
    };
    if best.caller <= other.caller {
        return best;
    }
    other
}

// Of the parts that can go on, the one of the least caller.
pub(crate) fn least_free(room: u32, aheads: &[Ahead], cursors: &[Cursor<'_>]) -> Option<Candidate>
    ensures { IsLeast room aheads.now (parts_left cursors.now) (length cursors.now) result }
{
    let mut least: Option<Candidate> = None;
    for (index, cursor) in cursors.iter().enumerate() {
        if can_go(room, aheads, cursor) {
            let other = Candidate {
                index,
                caller: cursor.caller,
            };
            least = Some(lesser(least, other));
        }
    }
    least
}
