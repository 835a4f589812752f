// The word that a source and its tokens share, and its kinds of step.
ghost use Rattle.cancel_flag.specs.Rule.{IsOneWay, source_view, token_view, shown, told, LoadsWord, ReadsBack, LeavesOne};
ghost use Rattle.std.specs.Prelude.{false};

use atomic_table::{Join, Split};
use crossbeam_utils::atomic::seq_cell::{Pass, RuledSeqCell};
use crossbeam_utils::rule::{Outcome, Protocol};

/// What a source or a token knows of the word. No value of it is ever made.
pub struct View {
    pub is_source: bool,
    /// It has read or left 1.
    pub has_seen: bool,
    /// How often it has loaded the word.
    pub looks: u64,
    /// It was shown a token that has seen 1.
    pub is_shown: bool,
}

/// The rule of the word.
pub struct OneWay;

impl Protocol<[u64; 1], View> for OneWay {
    ghost holds = { IsOneWay };

    ghost first = { source_view false };
}

/// The step of a look.
pub(crate) struct Load;

impl Outcome<[u64; 1], View> for Load {
    ghost then = { LoadsWord };
}

/// The step of a look by the source.
pub(crate) struct LookBack;

impl Outcome<[u64; 1], View> for LookBack {
    ghost then = { ReadsBack };
}

/// The step of a cancel.
pub(crate) struct Swap;

impl Outcome<[u64; 1], View> for Swap {
    ghost then = { LeavesOne };
}

/// The step that makes a token, which knows as much as what it is made from and has not looked.
pub(crate) struct MakeToken;

impl Split<View> for MakeToken {
    ghost left = { λ v. v };

    ghost right = { λ v. token_view 0 v.has_seen };
}

/// The step by which the source is shown a token.
pub(crate) struct ShowToken;

impl Join<View> for ShowToken {
    ghost both = { shown };

    ghost spent = { token_view 0 false };
}

/// The step by which a token is told what the source has seen, in place of what it had seen itself.
pub(crate) struct TellToken;

impl Join<View> for TellToken {
    ghost both = { told };

    ghost spent = { token_view 0 false };
}

pub(crate) type CancelWord = RuledSeqCell<[u64; 1], View, OneWay, 1>;

pub(crate) type Seat = Pass<[u64; 1], View>;
