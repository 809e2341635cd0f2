//! Memory of strings that entries no longer have.

ghost use Rattle.std.specs.Prelude.{◌≡◌, [], IfOk};

use crate::entry::Entry;
use fast_template::{ByteString, Scalar, UnicodeText};
use std::alloc::{AllocError, Global};
use std::marker::Model;

/// Memory of strings and byte vectors that entries no longer have, for those to come. A contract sees nothing of it.
#[derive(Drop)]
pub struct Spare {
    alloc: Global,
    vectors: Vec<Vec<u8>>,
}

impl Model for Spare {
    ghost Value = { Unit {0} };

    ghost view = { λ s. tt };
}

impl Spare {
    /// Of none. Takes no memory.
    pub fn new(alloc: Global) -> Spare {
        Spare {
            alloc,
            vectors: Vec::new(alloc),
        }
    }

    /// What memory is asked of.
    pub fn alloc(&self) -> Global {
        self.alloc
    }

    /// A vector of nothing, in the memory of one that was kept, if there is one.
    pub fn take(&mut self) -> Vec<u8>
        ensures { result.items ≡ [] }
    {
        match self.vectors.pop() {
            Some(mut vector) => {
                vector.clear();
                vector
            }
            None => Vec::new(self.alloc),
        }
    }

    // The same bytes once more.
    fn copy_bytes(&mut self, bytes: &[u8]) -> Result<Vec<u8>, AllocError>
        ensures { IfOk result (λ copy. copy.items ≡ bytes.now) }
    {
        let mut copy = self.take();
        copy.extend_from_slice(bytes)?;
        Ok(copy)
    }

    /// The same value once more, in the memory of one that was kept, if there is one.
    ///
    /// # Errors
    ///
    /// Where memory is refused.
    pub fn copy(&mut self, value: &Scalar) -> Result<Scalar, AllocError>
        ensures { IfOk result (λ copy. copy ≡ value.now) }
    {
        match value {
            Scalar::Ascii(text) => {
                let copy = self.copy_bytes(text.as_slice())?;
                Ok(Scalar::Ascii(ByteString::from_vec(copy)))
            }
            Scalar::Bytes(bytes) => {
                let copy = self.copy_bytes(bytes.as_slice())?;
                Ok(Scalar::Bytes(ByteString::from_vec(copy)))
            }
            Scalar::Unicode(text) => {
                let copy = self.copy_bytes(text.as_bytes())?;
                Ok(Scalar::Unicode(UnicodeText::from_utf8(copy)))
            }
            number => number.copy(self.alloc),
        }
    }

    /// Keeps the memory of a vector, or gives it back where there is no room to keep it.
    pub fn keep(&mut self, vector: Vec<u8>) {
        match self.vectors.push(vector) {
            Ok(()) | Err(_) => {}
        }
    }

    /// The same of what an entry has.
    pub fn keep_entry(&mut self, entry: Entry) {
        match entry {
            Entry::Assigned(Scalar::Ascii(text) | Scalar::Bytes(text)) => {
                self.keep(text.into_vec());
            }
            Entry::Assigned(Scalar::Unicode(text)) => self.keep(text.into_bytes()),
            Entry::Assigned(_) | Entry::Empty | Entry::Undefined => {}
        }
    }
}
