// Why a command goes no further.
ghost use Rattle.std.specs.Prelude.{◌≡◌};

use crate::answer::Row;
use ho_base::NoMemory;

/// Why a command has nothing to tell of its own.
#[derive(Drop)]
pub(crate) enum Stopped {
    /// One of its files is refused.
    Refused(Row),
    /// A file could not be read.
    ReadFault,
    NoMemory,
}

impl From<NoMemory> for Stopped {
    ghost use Rattle.record_cli.specs.declared.stopped.Stopped.{Stopped};

    ghost from_gives = { λ _ stopped. stopped ≡ Stopped.NoMemory };

    fn from(_: NoMemory) -> Self {
        Stopped::NoMemory
    }
}
