// Where files are read from.
ghost use Rattle.std.specs.Prelude.{◌≡◌, ◌<◌, ◌≤◌, ℕ, List, length, Option, IfSome};
ghost use Rattle.ho_io.specs.Pieces.{CountFits, GivesPiece, failed_fetches, failing_after, given_after, idle_after};

use ho_base::Word;

/// What a fetch answers.
#[derive(Clone, Copy, Debug, PartialEq, Eq)]
pub enum Fetched {
    /// So many bytes were put into the buffer, 0 exactly at or past the file's end.
    Bytes(usize),
    /// There is no file of that name.
    Missing,
    /// The fetch failed, and counts as a fault. The file is there.
    Failed,
}

// How many fetches gave no byte, after one that gave so many.
pub(crate) fn idle_after(idle: u64, count: usize) -> u64
    ensures { result ≡ idle_after idle (Fetched.Bytes count) }
{
    if count == 0 {
        idle.saturating_add(1)
    } else {
        idle
    }
}

/// Named files that can be read piece by piece.
pub trait Shelf {
    /// The bytes under each name, where the shelf tells it.
    ghost files: { Self → Option (List ℕ → Option (List ℕ)) };

    /// How many bytes it has given. At 2^64 - 1 the count stays.
    ghost given: { Self → ℕ };

    /// How many fetches gave no byte: at a file's end, without a file, or since they failed. At 2^64 - 1
    /// the count stays.
    ghost idle: { Self → ℕ };

    /// How often a fetch has failed. The count never falls; at 2^64 - 1 it stays.
    ghost faults: { Self → ℕ };

    /// The file whose fetch failed last, where the shelf tells its files; none where it does not.
    ghost failing: { Self → Option (List ℕ) };

    /// Puts bytes of a file, from a place on, into the front of the buffer. The files stay as they
    /// were, whatever is answered.
    fn fetch(&mut self, name: &Word, at: u64, buf: &mut [u8]) -> Fetched
        requires { 0 < length buf.old }
        ensures files { files self.new ≡ files self.old }
        ensures count { CountFits buf.new result }
        ensures piece { IfSome (files self.old) (λ files. GivesPiece (files name.now) at buf.new result) }
        ensures given { given self.new ≡ given_after (given self.old) result }
        ensures idle { idle self.new ≡ idle_after (idle self.old) result }
        ensures later { faults self.old ≤ faults self.new }
        ensures faults { faults self.new ≡ failed_fetches (faults self.old) result }
        ensures failing { failing self.new ≡ failing_after (files self.old) (failing self.old) name.now result };
}
