// Laws of what passes see. The functions have no code; their contracts are proved of the
// definitions.
ghost use Rattle.passes.specs.Laws.{EntriesStandByReceipts, EntriesKeepPlaces, SeenGoesOn, EntryGoesOn, OwnGoesOn, JoinsKeepPlaces, WholePassesMissNothing, EntriesOfWholePasses, WholePassesAddTheirOwn, AFirstPassHoldsAll, SplitsGiveOne, JoinsTakeAll, AllNumbersMakeAWhole};

/// The entry of an answered call stands at the place that its receipt says, in what its pass has
/// seen then and in all that any pass sees later which has seen as much: after more calls, and
/// after joins.
pub fn an_entry_keeps_its_place()
    ensures stands { EntriesStandByReceipts }
    ensures keeps { EntriesKeepPlaces }
    ensures others { SeenGoesOn }
    ensures entry { EntryGoesOn }
    ensures own { OwnGoesOn }
{}

/// After a join each entry stands where it stood in what either pass had seen. `O` is the type of
/// the obstacles that tries of the pass meet, here and below.
pub fn joined_passes_keep_places<O>()
    ensures { JoinsKeepPlaces O }
{}

/// A pass that holds all numbers has seen the whole history: nothing comes between what it has seen
/// and its own next entry, whose receipt is then the number of entries that it had seen.
pub fn a_whole_pass_has_seen_all<O>()
    ensures refusals { WholePassesMissNothing O }
    ensures entries { EntriesOfWholePasses O }
{}

/// The calls of a pass that holds all numbers add their own entries to what it has seen, and nothing
/// else: no entry of another comes between them.
pub fn a_whole_pass_adds_only_its_own<O>()
    ensures { WholePassesAddTheirOwn O }
{}

/// Passes that were split off one by one and joined again, in any order, make a whole pass: a split
/// gives one number away, a join adds the numbers of both, and as many numbers as there are callers
/// are all of them.
pub fn numbers_come_home<O>()
    ensures first { AFirstPassHoldsAll }
    ensures splits { SplitsGiveOne O }
    ensures joins { JoinsTakeAll O }
    ensures whole { AllNumbersMakeAWhole O }
{}
