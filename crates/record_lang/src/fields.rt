// The bytes of a field.
ghost use Rattle.std.specs.Prelude.{◌≡◌, ◌++◌, IfOk};

use ho_base::NoMemory;
use smallvec::SmallVec;
use std::alloc::Global;
use std::marker::Model;

/// How many bytes stand in the field itself. Most fields are shorter, and take no memory of their
/// own.
const INLINE: usize = 16;

/// A field of a record, or a word that a field is compared with: any bytes.
#[derive(Drop)]
pub struct Field {
    bytes: SmallVec<u8, INLINE>,
}

impl Model for Field {
    ghost use Rattle.std.specs.Prelude.{List, ℕ};

    ghost Value = { List ℕ };

    ghost view = { λ f. f.bytes.items };
}

impl Field {
    /// Keeps a copy of the bytes.
    pub fn new(alloc: Global, bytes: &[u8]) -> Result<Field, NoMemory>
        ensures { IfOk result (λ f. f ≡ bytes.now) }
    {
        let bytes = SmallVec::from_slice(alloc, bytes)?;
        Ok(Field { bytes })
    }

    // A field of these bytes, one after the other.
    pub(crate) fn joined(alloc: Global, first: &[u8], second: &[u8]) -> Result<Field, NoMemory>
        ensures { IfOk result (λ f. f ≡ first.now ++ second.now) }
    {
        let mut bytes = SmallVec::with_capacity(alloc, first.len().saturating_add(second.len()))?;
        bytes.extend_from_slice(first)?;
        bytes.extend_from_slice(second)?;
        Ok(Field { bytes })
    }

    pub fn bytes(&self) -> &[u8]
        ensures { result.now ≡ self.now }
    {
        self.bytes.as_slice()
    }
}
