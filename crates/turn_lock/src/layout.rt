// What stands where in the table: three words among eighteen, and one slot.
//
// word 0         the next ticket
// words 1 to 15  nothing, so that callers that try for a ticket write to another cache line
//                than the holder of the turn
// word 16        the number that is served
// word 17        the length of the history
// slot 0         the machine, while nobody has the turn

/// How many words the table has.
pub(crate) const WORDS: usize = 18;

/// The next ticket.
pub(crate) const TICKET: usize = 0;

/// The number that is served.
pub(crate) const SERVING: usize = 16;

/// The length of the history.
pub(crate) const COUNT: usize = 17;

/// The machine's slot.
pub(crate) const MACHINE: usize = 0;
