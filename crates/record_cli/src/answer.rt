// Statuses, and what is written with them.
ghost use Rattle.std.specs.Prelude.{IsTrue};
ghost use Rattle.record_cli.specs.Statuses.{is_refusal, is_written};

use crate::status::Status;
use crate::told::Told;
use ho_base::Text;

/// What a command answers: a status that comes with a text, and what is told.
#[derive(Drop)]
pub(crate) struct Answer {
    pub status: Status,
    pub told: Told,
    ghost written: { IsTrue (is_written status) },
}

/// The row that tells of a refused file.
#[derive(Drop)]
pub(crate) struct Row {
    pub status: Status,
    pub text: Text,
    ghost refused: { IsTrue (is_refusal status) },
}
