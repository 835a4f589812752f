// Whole files and whole texts, piece by piece.
ghost use Rattle.std.specs.Prelude.{◌≡◌, ◌<◌, ◌≤◌, ◌+◌, ◌^◌, ℕ, length, IfSome};
ghost use Rattle.ho_io.specs.Whole.{IsLoaded, IsWithin, IsWritten, LeavesRoom, bytes_within, failed_reads, failed_writes, failing_read, idle_reads};

use crate::{Fetched, Put, Shelf, Sink};
use ho_base::Word;
use std::alloc::Global;

/// How many bytes a fetch asks for at most: enough that a fetch's own cost does not show.
const PIECE: usize = 65_536;

/// What a read of a whole file answers.
#[derive(Drop)]
pub enum Loaded {
    /// All bytes of the file, at most as many as the limit.
    Whole(Vec<u8>),
    /// The file has more bytes than the limit.
    TooLarge,
    /// There is no file of that name.
    Missing,
    /// A fetch failed, the last one. The file is there.
    Failed,
    NoMemory,
}

/// Reads a file to its end, or until it has one byte more than the limit. Each turn takes one byte at
/// least, or ends; the first fetch that gives none ends it.
pub fn fetch_whole<S: Shelf>(alloc: Global, shelf: &mut S, name: &Word, limit: usize) -> Loaded
    requires { limit < 2 ^ 32 }
    ensures files { S.files shelf.new ≡ S.files shelf.old }
    ensures within { IsWithin limit result }
    ensures loaded { IfSome (S.files shelf.old) (λ files. IsLoaded (files name.now) limit result) }
    ensures bounded { S.given shelf.new ≤ S.given shelf.old + limit + 1 }
    ensures given { IfSome (S.files shelf.old) (λ files. S.given shelf.new ≤ S.given shelf.old + bytes_within limit (files name.now)) }
    ensures idle { S.idle shelf.new ≡ idle_reads (S.idle shelf.old) result }
    ensures later { S.faults shelf.old ≤ S.faults shelf.new }
    ensures faults { S.faults shelf.new ≡ failed_reads (S.faults shelf.old) result }
    ensures failing { S.failing shelf.new ≡ failing_read (S.files shelf.old) (S.failing shelf.old) name.now result }
{
    let mut bytes = Vec::new(alloc);
    let mut buffer = Vec::new(alloc);
    if buffer.resize(PIECE, 0).is_err() {
        return Loaded::NoMemory;
    }
    let buffer = buffer.as_mut_slice();
    'pieces: while bytes.len() <= limit {
        let at = bytes.len();
        let want = PIECE.min(limit - at + 1);
        let piece = &mut buffer[..want];
        match shelf.fetch(name, at as u64, piece) {
            Fetched::Bytes(0) => return Loaded::Whole(bytes),
            Fetched::Bytes(count) => {
                if bytes.extend_from_slice(&piece[..count]).is_err() {
                    return Loaded::NoMemory;
                }
            }
            Fetched::Missing => return Loaded::Missing,
            Fetched::Failed => return Loaded::Failed,
        }
    }
    Loaded::TooLarge
}

/// What became of a whole text.
#[derive(Clone, Copy, Debug, PartialEq, Eq)]
pub enum Written {
    Whole,
    /// A put failed. What was taken is the front of the text.
    Failed,
}

/// Writes a whole text, for which there is room. Each turn puts one byte at least, or ends; the first
/// put that fails ends it.
pub fn put_whole<K: Sink>(out: &mut K, text: &[u8]) -> Written
    requires { length text.now ≤ K.spare out.old }
    ensures taken { IsWritten text.now (K.taken out.old) (K.taken out.new) result }
    ensures room { LeavesRoom text.now (K.spare out.old) (K.spare out.new) result }
    ensures puts { K.puts out.new ≤ K.puts out.old + length text.now }
    ensures reserves { K.reserves out.new ≡ K.reserves out.old }
    ensures asked { K.asked out.new ≡ K.asked out.old }
    ensures later { K.faults out.old ≤ K.faults out.new }
    ensures faults { K.faults out.new ≡ failed_writes (K.faults out.old) result }
{
    let mut done = 0;
    'pieces: while done < text.len() {
        match out.put(&text[done..]) {
            Put::Took(count) => done += count,
            Put::Failed => return Written::Failed,
        }
    }
    Written::Whole
}
