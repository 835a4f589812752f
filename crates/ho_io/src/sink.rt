// Where text is written to.
ghost use Rattle.std.specs.Prelude.{◌≡◌, ◌<◌, ◌≤◌, ℕ, List, length, Option, OnOk, OnErr};
ghost use Rattle.ho_io.specs.Counts.{counted};
ghost use Rattle.ho_io.specs.Pieces.{CountsPiece, TakesPiece, failed_puts};

use ho_base::NoMemory;

/// What a put answers.
#[derive(Clone, Copy, Debug, PartialEq, Eq)]
pub enum Put {
    /// So many bytes of the piece were taken, from its front on: one at least.
    Took(usize),
    /// The put failed, took nothing, and counts as a fault.
    Failed,
}

/// What text is written to, piece by piece.
pub trait Sink {
    /// The bytes taken so far, where the sink tells it.
    ghost taken: { Self → Option (List ℕ) };

    /// How many bytes more it has room for.
    ghost spare: { Self → ℕ };

    /// How many puts there were. At 2^64 - 1 the count stays.
    ghost puts: { Self → ℕ };

    /// How often room was asked for. At 2^64 - 1 the count stays.
    ghost reserves: { Self → ℕ };

    /// For how many bytes room was asked last.
    ghost asked: { Self → ℕ };

    /// How often a put has failed. The count never falls; at 2^64 - 1 it stays.
    ghost faults: { Self → ℕ };

    /// Makes room for so many bytes, or refuses and has the room that it had. Either way the call counts
    /// as one that asked for so many.
    fn reserve(&mut self, more: usize) -> Result<(), NoMemory>
        ensures room { OnOk result (more ≤ spare self.new) }
        ensures refused { OnErr result (spare self.new ≡ spare self.old) }
        ensures taken { taken self.new ≡ taken self.old }
        ensures reserves { reserves self.new ≡ counted (reserves self.old) 1 }
        ensures asked { asked self.new ≡ more }
        ensures puts { puts self.new ≡ puts self.old }
        ensures faults { faults self.new ≡ faults self.old };

    /// Takes bytes from the front of the piece, for which there is room.
    fn put(&mut self, piece: &[u8]) -> Put
        requires some { 0 < length piece.now }
        requires room { length piece.now ≤ spare self.old }
        ensures taken { TakesPiece (taken self.old) (taken self.new) piece.now result }
        ensures spare { CountsPiece (spare self.old) (spare self.new) piece.now result }
        ensures puts { puts self.new ≡ counted (puts self.old) 1 }
        ensures reserves { reserves self.new ≡ reserves self.old }
        ensures asked { asked self.new ≡ asked self.old }
        ensures later { faults self.old ≤ faults self.new }
        ensures faults { faults self.new ≡ failed_puts (faults self.old) result };
}
