// What stands where in the table of a bag: a word for all callers, then one for each caller, each in
// a cache line of its own, and a slot for each caller.
//
// word 0              the event word: 1,048,576 times the number of events, and the number of items
// word 16 (c + 1)     the list word of caller c: 0, or one more than the number of the list's holder
// slot c              the list of caller c, while its word is 0
ghost use Rattle.std.specs.Prelude.{◌≡◌, ◌<◌, ◌≤◌};
ghost use Rattle.bag_rule.specs.Words.{list_word};

/// How many words lie from one that is used to the next.
pub(crate) const LINE: usize = 16;

/// The event word.
pub(crate) const EVENTS: usize = 0;

/// One event.
pub const EVENT: u64 = 1 << 20;

/// The most calls that a caller makes: each makes one entry. With 64 callers the event word stays
/// below 2^64.
pub const MOST_CALLS: u64 = 1 << 37;

/// The most items in one list.
pub const MOST_ITEMS: usize = 16_383;

/// The word of a list.
pub(crate) fn list_word(list: usize) -> usize
    requires { list < 64 }
    ensures { result ≡ list_word list }
{
    LINE * list + LINE
}
