//! A flag by which one thread asks others to stop: a word that goes from 0 to 1 once.
//!
//! [`cancel_pair`] makes a [`CancelSource`], which alone can set the word, and a [`CancelToken`],
//! which looks at it; [`CancelToken::another`] makes more tokens. All may move to any thread.
//!
//! It stands on `RuledSeqCell` of `crossbeam_utils`, a word that keeps a rule at each step of each
//! thread. The rule (`IsOneWay` of `specs/Rule.antt`) is that the word is 1 wherever a source or a
//! token has seen 1, and only where the source has seen 1. The steps are the source's swap that leaves
//! 1, a load by a token or by the source, the split of a token from what there is, and the join of such
//! a token to another or to the source, which then knows as much.
//!
//! What the crate promises upward follows from them. A source has seen 1 exactly from its first
//! `cancel` on, and its own look reads 1 exactly then. A look of a token answers what its own load
//! read, so there is no answer without a load, and a token that has answered true never answers false.
//! No token answers true before its source has cancelled: where source and token meet again, in
//! [`CancelSource::tell`], the token has seen 1 only where the source has. And a token that was told
//! that its source has cancelled answers true at its next look. `specs/Looks.antt` has the words for what
//! several looks leave of a token, in which calls that look again and again say which looks they took.
//!
//! A look is three atomic loads, and takes the cell's lock only while the one swap is under way.
//! Only `cancel_pair` and `another` may want memory.
#![tactic(auto)]

mod flag;
mod rule;

pub use flag::{CancelSource, CancelToken, cancel_pair};

#[cfg(test)]
mod tests;
