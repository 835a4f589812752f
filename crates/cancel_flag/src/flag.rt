// The source of a cancellation, and its tokens.
ghost use Rattle.std.specs.Prelude.{◌≡◌, ◌+◌, true, false, IfOk, IsTrue};
ghost use Rattle.cancel_flag.specs.Seen.{IsNewPair, new_token};

use crate::rule::{CancelWord, Load, LookBack, MakeToken, Seat, ShowToken, Swap, TellToken};
use ho_base::NoMemory;
use std::alloc::Global;
use std::marker::Model;
use std::sync::{Arc, Wait};

/// What the word holds before it is set, and from then on.
const UNSET: u64 = 0;

const SET: u64 = 1;

/// Who can ask all that have a token of its word to stop, after .NET's `CancellationTokenSource`.
///
/// Contracts see which word it is of, and whether it has seen 1 in it.
#[derive(Drop)]
pub struct CancelSource {
    word: Arc<CancelWord>,
    seat: Seat,
}

impl Model for CancelSource {
    ghost use Rattle.std.specs.Prelude.{◌≡◌, true};
    ghost use Rattle.std.specs.Arc.{arc_value};
    ghost use Rattle.crossbeam_utils.specs.Seq.{cell_view};
    ghost use Rattle.cancel_flag.specs.Seen.{Source};

    ghost Value = { Source };

    ghost view = { λ s. record { word = s.seat.table_id; seen = (cell_view s.seat).has_seen } };

    ghost invariant = { λ s. (s.seat.table_id ≡ (arc_value s.word).table.shared.table_id) × ((cell_view s.seat).is_source ≡ true) };
}

/// Who can look whether it was asked to stop, after .NET's `CancellationToken`.
///
/// Contracts see which word it is of, how often it has looked, and whether it has seen 1.
#[derive(Drop)]
pub struct CancelToken {
    word: Arc<CancelWord>,
    seat: Seat,
}

impl Model for CancelToken {
    ghost use Rattle.std.specs.Prelude.{◌≡◌, false};
    ghost use Rattle.std.specs.Arc.{arc_value};
    ghost use Rattle.crossbeam_utils.specs.Seq.{cell_view};
    ghost use Rattle.cancel_flag.specs.Seen.{Token};

    ghost Value = { Token };

    ghost view = { λ t. record { word = t.seat.table_id; looks = (cell_view t.seat).looks; seen = (cell_view t.seat).has_seen } };

    ghost invariant = { λ t. (t.seat.table_id ≡ (arc_value t.word).table.shared.table_id) × ((cell_view t.seat).is_source ≡ false) };
}

/// A source and a token of one new word. Neither has seen 1, and the token has not looked.
///
/// Without memory there is neither.
#[tactic(auto, using(crate::proofs::Steps::rule_of_new_word, crate::proofs::Steps::rule_after_split))]
pub fn cancel_pair(alloc: Global) -> Result<(CancelSource, CancelToken), NoMemory>
    ensures { IfOk result (λ pair. IsNewPair pair.0 pair.1) }
{
    let (word, mut seat) = CancelWord::ruled(alloc, [UNSET])?;
    let word = Arc::new(alloc, word)?;
    let same_word = Arc::try_clone(&word)?;
    let token = CancelToken {
        seat: word.split_pass::<MakeToken>(&mut seat),
        word: same_word,
    };
    Ok((CancelSource { word, seat }, token))
}

impl CancelSource {
    /// Sets the word, which then stays 1 (`CancellationTokenSource.Cancel`).
    ///
    /// Afterwards the source has seen 1, so that a second call changes nothing. Takes no memory.
    #[tactic(auto, using(crate::proofs::Steps::rule_after_swap))]
    pub fn cancel<R: Wait>(&mut self, rt: &R)
        ensures { self.new ≡ record self.old { seen = true } }
    {
        self.word.swap_as::<Swap, R>(rt, &mut self.seat, [SET]);
    }

    /// Loads the word once, and answers whether it read 1, which it does exactly where the source has
    /// cancelled (`CancellationTokenSource.IsCancellationRequested`). Takes no memory.
    #[tactic(auto, using(crate::proofs::Steps::rule_after_look_back))]
    pub fn is_cancelled<R: Wait>(&mut self, rt: &R) -> bool
        ensures unchanged { self.new ≡ self.old }
        ensures answer { result ≡ self.old.seen }
    {
        self.word.load_as::<LookBack, R>(rt, &mut self.seat)[0] == SET
    }

    /// Tells a token of its word whether it has cancelled, by one load of its own.
    ///
    /// The token may have seen 1 before only where the source had cancelled. Afterwards it has seen 1
    /// exactly where the source has, so that where it has, the token's next look answers true. Takes
    /// no memory.
    #[tactic(auto, using(crate::proofs::Steps::rule_after_split, crate::proofs::Steps::rule_after_look_back, crate::proofs::Steps::rule_after_show, crate::proofs::Steps::rule_after_tell))]
    pub fn tell<R: Wait>(&mut self, rt: &R, token: &mut CancelToken)
        requires { token.old.word ≡ self.old.word }
        ensures unchanged { self.new ≡ self.old }
        ensures only_where_cancelled { token.old.seen ≡ true → self.old.seen ≡ true }
        ensures told { token.new ≡ record token.old { seen = self.old.seen } }
    {
        let seen_by_token = self.word.split_pass::<MakeToken>(&mut token.seat);
        self.word
            .join_pass::<ShowToken>(&mut self.seat, seen_by_token);
        self.word.load_as::<LookBack, R>(rt, &mut self.seat);
        let seen_by_source = self.word.split_pass::<MakeToken>(&mut self.seat);
        self.word
            .join_pass::<TellToken>(&mut token.seat, seen_by_source);
    }
}

impl CancelToken {
    /// Loads the word once, and answers whether it read 1
    /// (`CancellationToken.IsCancellationRequested`).
    ///
    /// Once it has answered true, it does so ever after. Takes no memory.
    #[tactic(auto, using(crate::proofs::Steps::rule_after_load))]
    pub fn is_cancelled<R: Wait>(&mut self, rt: &R) -> bool
        ensures looked { self.new ≡ record self.old { looks = self.old.looks + 1; seen = result } }
        ensures for_good { self.old.seen ≡ true → IsTrue result }
    {
        self.word.load_as::<Load, R>(rt, &mut self.seat)[0] == SET
    }

    /// Another token of the same word, which has seen 1 where this one has, and has not looked.
    ///
    /// It changes nothing in this one, with memory or without.
    #[tactic(auto, using(crate::proofs::Steps::rule_after_split))]
    pub fn another<R: Wait>(&mut self, _rt: &R) -> Result<CancelToken, NoMemory>
        ensures unchanged { self.new ≡ self.old }
        ensures made { IfOk result (λ token. token ≡ new_token self.old.word self.old.seen) }
    {
        let word = Arc::try_clone(&self.word)?;
        let seat = self.word.split_pass::<MakeToken>(&mut self.seat);
        Ok(CancelToken { word, seat })
    }
}
