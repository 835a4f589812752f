// The answers of an inner begin on a lent side.

/// The answers of a begin, of which each holds the lender: the wait does, and each other has it beside.
pub(crate) enum Lent<'a, L, W, E, X> {
    Waits(W),
    Ends(&'a mut L, E),
    /// There was no memory.
    Lacks(&'a mut L, X),
}
