// Why a pipeline's text is refused.
ghost use Rattle.std.specs.Prelude.{◌≡◌};
ghost use Rattle.record_lang.specs.Causes.{cause_number, together};

/// Why a line of a pipeline's text is refused, or at the end the whole text. Of two causes of one
/// line the first in this order is told.
#[derive(Clone, Copy, Debug, PartialEq, Eq)]
pub(crate) enum Cause {
    /// A byte outside 0x20 to 0x7E.
    BadByte = 1,
    /// The first word is none that begins a line.
    UnknownLine,
    /// A word that is not of its form, or a wrong count of words.
    BadShape,
    /// Digits whose value is out of range.
    BadNumber,
    /// A stage past the eighth, a second guard, or a second joint before a stage.
    TooMany,
    /// The text has no stage.
    NoStage,
    /// No stage follows the last joint.
    LooseJoint,
}

impl Cause {
    // The number by which the cause is told.
    pub(crate) fn number(self) -> u8
        ensures { result ≡ cause_number self }
    {
        self as u8
    }
}

// Two parts of a line, or the first of their causes.
pub(crate) fn both<A: Drop, B: Drop>(
    first: Result<A, Cause>,
    second: Result<B, Cause>,
) -> Result<(A, B), Cause>
    ensures { result ≡ together first second }
{
    match first {
        Ok(a) => match second {
            Ok(b) => Ok((a, b)),
            Err(cause) => Err(cause),
        },
        Err(cause) => match second {
            Err(other) if other.number() < cause.number() => Err(other),
            _ => Err(cause),
        },
    }
}
