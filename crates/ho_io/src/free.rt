// A shelf and a sink in memory, which never fail.
ghost use Rattle.std.specs.Prelude.{◌≡◌, ◌≢◌, ◌<◌, ◌≤◌, ◌↔◌, ◌-◌, [], length, min, OnOk, OnErr, IfSome, IsSome, None, Some, option_map};
ghost use Rattle.ho_io.specs.Counts.{counted};
ghost use Rattle.ho_io.specs.Memory.{SetsFile, file_named, name_at};
ghost use Rattle.ho_io.specs.Pieces.{CountFits, CountsPiece, GivesLargest, GivesPiece, IsPiece, TakesPiece, given_after, idle_after};
ghost use Rattle.ho_io.specs.Stored.{files_in};

use crate::shelf::idle_after;
use crate::{Fetched, Put, Shelf, Sink};
use ho_base::{NoMemory, Word};
use std::alloc::Global;
use std::marker::Model;

#[derive(Drop)]
pub(crate) struct StoredFile {
    name: Word,
    bytes: Vec<u8>,
}

/// Files in memory, seen as what stands under each name and how many bytes were given. No fetch fails.
/// A fetch looks through the names in turn.
#[derive(Drop)]
pub struct FreeShelf {
    alloc: Global,
    files: Vec<StoredFile>,
    given: u64,
    idle: u64,
}

impl Model for FreeShelf {
    ghost use Rattle.ho_io.specs.Memory.{Shelved};
    ghost use Rattle.ho_io.specs.Stored.{files_in};

    ghost Value = { Shelved };

    ghost view = { λ s. record { files = files_in s.files.items; given = s.given; idle = s.idle } };
}

impl FreeShelf {
    /// A shelf with no files.
    pub fn new(alloc: Global) -> FreeShelf
        ensures files { result.files ≡ [] }
        ensures given { result.given ≡ 0 }
        ensures idle { result.idle ≡ 0 }
    {
        FreeShelf {
            alloc,
            files: Vec::new(alloc),
            given: 0,
            idle: 0,
        }
    }

    /// Puts a file on the shelf. It takes the place of one with the same name.
    pub fn add(&mut self, name: Word, bytes: &[u8]) -> Result<(), NoMemory>
        ensures added { OnOk result (SetsFile self.old.files self.new.files name bytes.now) }
        ensures refused { OnErr result (self.new.files ≡ self.old.files) }
        ensures given { self.new.given ≡ self.old.given }
        ensures idle { self.new.idle ≡ self.old.idle }
    {
        let bytes = Vec::from_slice(self.alloc, bytes)?;
        self.files.insert(0, StoredFile { name, bytes })?;
        Ok(())
    }

    // Counts a fetch that gave no byte.
    pub(crate) fn count_idle(&mut self)
        ensures files { self.new.files ≡ self.old.files }
        ensures given { self.new.given ≡ self.old.given }
        ensures idle { self.new.idle ≡ counted self.old.idle 1 }
    {
        self.idle = self.idle.saturating_add(1);
    }

    // The place of the file of that name, if there is one.
    pub(crate) fn place_of(&self, name: &Word) -> Option<usize>
        ensures there { IsSome result ↔ IsSome (file_named self.now.files name.now) }
        ensures named { IfSome result (λ place. name_at self.now.files (Some place) ≡ Some name.now) }
    {
        match find(&self.files, name.bytes()) {
            Some((place, _)) => Some(place),
            None => None,
        }
    }
}

// The place and the bytes of the first file of that name.
fn find<'a>(files: &'a [StoredFile], name: &[u8]) -> Option<(usize, &'a [u8])>
    ensures bytes { option_map (λ found. found.1.now) result ≡ file_named (files_in files.now) name.now }
    ensures named { IfSome result (λ found. name_at (files_in files.now) (Some found.0) ≡ Some name.now) }
{
    for (place, file) in files.iter().enumerate() {
        if file.name.bytes() == name {
            return Some((place, &file.bytes));
        }
    }
    None
}

// Copies what stands at a place into the front of the buffer.
fn copy_piece(from: &[u8], at: u64, buf: &mut [u8]) -> usize
    requires { 0 < length buf.old }
    ensures size { result ≡ min (length buf.new) (length from.now - at) }
    ensures piece { IsPiece from.now at buf.new result }
{
    if at >= from.len() as u64 {
        return 0;
    }
    let rest = &from[at as usize..];
    let count = rest.len().min(buf.len());
    buf[..count].copy_from_slice(&rest[..count]);
    count
}

impl Shelf for FreeShelf {
    ghost files = { λ s. Some (file_named s.files) };

    ghost given = { λ s. s.given };

    ghost idle = { λ s. s.idle };

    ghost faults = { λ s. 0 };

    ghost failing = { λ s. None };

    /// Gives as much as the buffer and the rest of the file allow.
    fn fetch(&mut self, name: &Word, at: u64, buf: &mut [u8]) -> Fetched
        requires { 0 < length buf.old }
        ensures succeeds { result ≢ Fetched.Failed }
        ensures files { self.new.files ≡ self.old.files }
        ensures count { CountFits buf.new result }
        ensures size { GivesLargest (file_named self.old.files name.now) at buf.new result }
        ensures piece { GivesPiece (file_named self.old.files name.now) at buf.new result }
        ensures given { self.new.given ≡ given_after self.old.given result }
        ensures idle { self.new.idle ≡ idle_after self.old.idle result }
    {
        match find(&self.files, name.bytes()) {
            None => {
                self.count_idle();
                Fetched::Missing
            }
            Some((_, bytes)) => {
                let count = copy_piece(bytes, at, buf);
                self.given = self.given.saturating_add(count as u64);
                self.idle = idle_after(self.idle, count);
                Fetched::Bytes(count)
            }
        }
    }
}

/// A sink in memory, seen as the bytes taken, the room that is left, the most bytes that it takes at
/// once, the count of puts, and what room was asked for. No put fails.
#[derive(Drop)]
pub struct FreeSink {
    bytes: Vec<u8>,
    largest: usize,
    spare: usize,
    puts: u64,
    reserves: u64,
    asked: usize,
}

impl Model for FreeSink {
    ghost use Rattle.std.specs.Prelude.{◌+◌, ◌<◌, ◌≤◌, vec_len};
    ghost use Rattle.std.specs.Vec.{vec_capacity};
    ghost use Rattle.ho_io.specs.Memory.{Sunk};

    ghost Value = { Sunk };

    ghost view = { λ s. record { taken = s.bytes.items; spare = s.spare; largest = s.largest; puts = s.puts; reserves = s.reserves; asked = s.asked } };

    ghost invariant = { λ s. (0 < s.largest) × (vec_len s.bytes + s.spare ≤ vec_capacity s.bytes) };
}

impl FreeSink {
    /// An empty sink that takes at most so many bytes at once.
    pub fn new(alloc: Global, largest: usize) -> FreeSink
        requires { 0 < largest }
        ensures taken { result.taken ≡ [] }
        ensures spare { result.spare ≡ 0 }
        ensures largest { result.largest ≡ largest }
        ensures puts { result.puts ≡ 0 }
        ensures reserves { result.reserves ≡ 0 }
        ensures asked { result.asked ≡ 0 }
    {
        FreeSink {
            bytes: Vec::new(alloc),
            largest,
            spare: 0,
            puts: 0,
            reserves: 0,
            asked: 0,
        }
    }

    /// The bytes taken so far.
    pub fn taken(&self) -> &[u8]
        ensures { result.now ≡ self.now.taken }
    {
        &self.bytes
    }
}

impl Sink for FreeSink {
    ghost taken = { λ s. Some s.taken };

    ghost spare = { λ s. s.spare };

    ghost puts = { λ s. s.puts };

    ghost reserves = { λ s. s.reserves };

    ghost asked = { λ s. s.asked };

    ghost faults = { λ s. 0 };

    fn reserve(&mut self, more: usize) -> Result<(), NoMemory>
        ensures room { OnOk result (more ≤ self.new.spare) }
        ensures refused { OnErr result (self.new.spare ≡ self.old.spare) }
        ensures taken { self.new.taken ≡ self.old.taken }
        ensures largest { self.new.largest ≡ self.old.largest }
        ensures reserves { self.new.reserves ≡ counted self.old.reserves 1 }
        ensures asked { self.new.asked ≡ more }
        ensures puts { self.new.puts ≡ self.old.puts }
    {
        self.reserves = self.reserves.saturating_add(1);
        self.asked = more;
        self.bytes.reserve(more)?;
        self.spare = more;
        Ok(())
    }

    /// Takes the whole piece, or the largest piece from its front.
    fn put(&mut self, piece: &[u8]) -> Put
        requires some { 0 < length piece.now }
        requires room { length piece.now ≤ self.old.spare }
        ensures took { result ≡ Put.Took (min (length piece.now) self.old.largest) }
        ensures taken { TakesPiece (Some self.old.taken) (Some self.new.taken) piece.now result }
        ensures spare { CountsPiece self.old.spare self.new.spare piece.now result }
        ensures largest { self.new.largest ≡ self.old.largest }
        ensures puts { self.new.puts ≡ counted self.old.puts 1 }
        ensures reserves { self.new.reserves ≡ self.old.reserves }
        ensures asked { self.new.asked ≡ self.old.asked }
    {
        self.puts = self.puts.saturating_add(1);
        let count = piece.len().min(self.largest);
        // There is room for it, so this can't fail.
        let _ = self.bytes.extend_from_slice(&piece[..count]);
        self.spare -= count;
        Put::Took(count)
    }
}
