// What the program answers.
ghost use Rattle.std.specs.Prelude.{◌≡◌};
ghost use Rattle.record_cli.specs.Statuses.{status_number};

/// How a command ended. The program exits with its number.
#[derive(Clone, Copy, Debug, PartialEq, Eq)]
pub enum Status {
    /// The text was written whole.
    Done,
    /// The text was written whole: a guard ended the run, or a history is not legal and whole.
    Ended,
    /// The words have no form of a command.
    Usage,
    /// There is no file of that name.
    Missing,
    /// A pipeline's text has a refused line, or a script's or a history's a refused row.
    SpecRefused,
    /// A record file has a refused row.
    InputRefused,
    /// A file passes its limit of bytes or rows.
    TooLarge,
    /// A file could not be read.
    ReadFault,
    /// The text could not be written whole. What was written is the front of it.
    WriteFault,
    NoMemory,
}

impl Status {
    /// The program's exit status, from 0 to 9 in the order of the variants.
    pub fn number(&self) -> u8
        ensures { result ≡ status_number self.now }
    {
        match *self {
            Status::Done => 0,
            Status::Ended => 1,
            Status::Usage => 2,
            Status::Missing => 3,
            Status::SpecRefused => 4,
            Status::InputRefused => 5,
            Status::TooLarge => 6,
            Status::ReadFault => 7,
            Status::WriteFault => 8,
            Status::NoMemory => 9,
        }
    }
}
