//! Texts of any bytes, and extended attributes.

ghost use Rattle.std.specs.Prelude.{◌≡◌, IfOk};

use crate::copy::TryCopy;
use crate::lists::ListOf;
use out_of_memory::Memory;
use std::alloc::Global;
use std::marker::Model;

/// A text of any bytes. Contracts see it as the list of its bytes.
#[derive(Debug, Drop)]
pub struct Blobtext {
    bytes: Vec<u8>,
}

impl Model for Blobtext {
    ghost use Rattle.std.specs.Prelude.{List, ℕ};

    ghost Value = { List ℕ };

    ghost view = { λ a. a.bytes.items };
}

impl Blobtext {
    /// The text of these bytes, copied.
    pub fn new(alloc: Global, bytes: &[u8]) -> Result<Blobtext, Memory>
        ensures { IfOk result (λ text. text ≡ bytes.now) }
    {
        Ok(Blobtext {
            bytes: Vec::from_slice(alloc, bytes)?,
        })
    }

    /// The bytes, in order.
    pub fn bytes(&self) -> &[u8]
        ensures { result.now ≡ self.now }
    {
        self.bytes.as_slice()
    }
}

impl TryCopy for Blobtext {
    fn try_copy(&self, alloc: Global) -> Result<Blobtext, Memory> {
        Blobtext::new(alloc, self.bytes())
    }
}

/// An extended attribute: a key and its value.
#[derive(Debug, Drop)]
pub struct Xattr {
    pub key: Blobtext,
    pub value: Blobtext,
}

impl Xattr {
    /// The attribute of these bytes, copied.
    pub fn new(alloc: Global, key: &[u8], value: &[u8]) -> Result<Xattr, Memory>
        ensures { IfOk result (λ xattr. xattr ≡ record { key = key.now; value = value.now }) }
    {
        Ok(Xattr {
            key: Blobtext::new(alloc, key)?,
            value: Blobtext::new(alloc, value)?,
        })
    }
}

impl TryCopy for Xattr {
    fn try_copy(&self, alloc: Global) -> Result<Xattr, Memory> {
        Ok(Xattr {
            key: self.key.try_copy(alloc)?,
            value: self.value.try_copy(alloc)?,
        })
    }
}

/// The extended attributes of a blob, in order.
pub type XattrList = ListOf<Xattr>;
