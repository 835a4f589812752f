// What is told of a command that was not refused.
ghost use Rattle.std.specs.Prelude.{◌≡◌};

use crate::finished::Shown;
use drive_kit::DrivenPass;
use ho_base::Text;
use stage_pipeline::Ran;

/// A text, and what is shown beside it.
#[derive(Drop)]
pub(crate) enum Told {
    Text(Text),
    /// A history, and the whole pass of the object that has seen it.
    Driven(Text, DrivenPass),
    Ran(Ran),
}

impl Told {
    ghost use Rattle.record_cli.specs.Answers.{shown_in, text_in};

    /// The text.
    pub(crate) fn bytes(&self) -> &[u8]
        ensures { result.now ≡ text_in self.now }
    {
        match self {
            Told::Text(text) => text.bytes(),
            Told::Driven(history, _) => history.bytes(),
            Told::Ran(ran) => ran.text.bytes(),
        }
    }

    /// What is shown.
    pub(crate) fn into_shown(self) -> Shown
        ensures { result ≡ shown_in self }
    {
        match self {
            Told::Text(_) => Shown::Nothing,
            Told::Driven(_, pass) => Shown::Driven(pass),
            Told::Ran(ran) => Shown::Ran(ran),
        }
    }
}
