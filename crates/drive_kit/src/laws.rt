// What the text of a history tells. The function has no code; its contract is proved of the definitions.
ghost use Rattle.drive_kit.specs.TextLaws.{TextsDiffer, TextsTellHistories};

/// A history of an object, of at most 20,000 entries, is read back from its text. So two such
/// histories with one text are equal. It is of the object where its callers are below 16, the object
/// has its calls, and the replies are those that the calls can have. Does nothing.
pub fn texts_tell_histories()
    ensures read_back { TextsTellHistories }
    ensures differ { TextsDiffer }
{}
