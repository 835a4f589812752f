// Why a script or a history is refused.
ghost use Rattle.std.specs.Prelude.{◌≡◌};
ghost use Rattle.drive_kit.specs.Causes.{cause_number, fault_at};
ghost use Rattle.drive_kit.specs.declared.causes.RowFault.TheVariants as fault;

use ho_base::NoMemory;
use std::alloc::{AllocError, AllocFailed};

/// Why the text of a script or of a history is not read. Rows are counted from 0.
#[derive(Clone, Copy, Debug, PartialEq, Eq)]
pub enum ScriptFault {
    /// The first refused row, with the first of these causes that it has: 1 there is no row 0;
    /// 2 row 0 is no object; 3 the caller is no number from 0 to 15; 4 no call, or none of the
    /// object; 5 the argument is absent, not wanted or out of range, or a field follows it; 6 a
    /// script's 101st snapshot; 7 fewer than five fields, or the first is not the row's number; 8 no
    /// reply of this call. A script has the causes 1 to 6, and a history 7 and then 3, 4, 5 and 8.
    Refused { row: u64, cause: u8 },
    /// A script has a row 20,001, or a history a row 20,000, and no row before it is refused.
    TooManyRows,
    /// There was no memory for what the rows say. Of the text it tells nothing.
    NoMemory,
}

impl From<NoMemory> for ScriptFault {
    ghost use Rattle.drive_kit.specs.declared.causes.ScriptFault.{ScriptFault};

    ghost from_gives = { λ _ fault. fault ≡ ScriptFault.NoMemory };

    fn from(_: NoMemory) -> Self {
        ScriptFault::NoMemory
    }
}

impl<T: Drop> From<AllocFailed<T>> for ScriptFault {
    ghost use Rattle.drive_kit.specs.declared.causes.ScriptFault.{ScriptFault};

    ghost from_gives = { λ _ fault. fault ≡ ScriptFault.NoMemory };

    fn from(_: AllocFailed<T>) -> Self {
        ScriptFault::NoMemory
    }
}

/// Why a row is refused. The places of the causes are their numbers, and not their order: a row of a
/// script is judged by the first six in this order, one of a history by `BadShape`, `BadCaller`,
/// `UnknownCall`, `BadArgument` and `BadReply`.
#[derive(Clone, Copy, Debug, PartialEq, Eq)]
pub(crate) enum Cause {
    /// There is no row 0.
    NoObject = 1,
    /// Row 0 is no object.
    BadObject,
    /// The caller is no number from 0 to 15.
    BadCaller,
    /// No call, or none of the object.
    UnknownCall,
    /// The argument is absent, not wanted or out of range, or a script's row goes on after it.
    BadArgument,
    /// The 101st snapshot.
    TooManySnaps,
    /// Fewer than five fields, or the first is not the row's number.
    BadShape,
    /// No reply of this call.
    BadReply,
}

impl Cause {
    // The number by which the cause is told.
    pub(crate) fn number(self) -> u8
        ensures { result ≡ cause_number self }
    {
        self as u8
    }
}

/// Why a row is not read.
#[derive(Clone, Copy, Debug, PartialEq, Eq)]
pub(crate) enum RowFault {
    Refused(Cause),
    NoMemory,
}

impl RowFault {
    // The same of the text, whose row has this number.
    pub(crate) fn at(self, row: u64) -> ScriptFault
        ensures { result ≡ fault_at row self }
    {
        match self {
            RowFault::Refused(cause) => ScriptFault::Refused {
                row,
                cause: cause.number(),
            },
            RowFault::NoMemory => ScriptFault::NoMemory,
        }
    }
}

impl From<Cause> for RowFault {
    ghost from_gives = { λ cause told. told ≡ fault.Refused cause };

    fn from(cause: Cause) -> Self {
        RowFault::Refused(cause)
    }
}

impl From<NoMemory> for RowFault {
    ghost from_gives = { λ _ told. told ≡ fault.NoMemory };

    fn from(_: NoMemory) -> Self {
        RowFault::NoMemory
    }
}

impl From<AllocError> for RowFault {
    ghost from_gives = { λ _ told. told ≡ fault.NoMemory };

    fn from(_: AllocError) -> Self {
        RowFault::NoMemory
    }
}

impl<T: Drop> From<AllocFailed<T>> for RowFault {
    ghost from_gives = { λ _ told. told ≡ fault.NoMemory };

    fn from(_: AllocFailed<T>) -> Self {
        RowFault::NoMemory
    }
}
