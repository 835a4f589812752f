// What one try of a call answers.
use ho_base::Receipt;

/// What one try of a call on a shared machine answers. All but the first hand the call back.
#[derive(Debug, Drop)]
pub enum Attempt<C, R> {
    /// The reply, and the place of its entry.
    Answer(R, Receipt),
    /// Another caller had the turn, or a ticket for it: the pass has met an obstacle more. That it was met
    /// in this very try is the code's, and no contract says it.
    Busy(C),
    /// The caller has made as many calls as it may.
    Spent(C),
    /// There was no memory for a call that wants some.
    NoMemory(C),
}
