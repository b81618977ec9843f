//! Names of volumes.

ghost use Rattle.std.specs.Prelude.{◌≡◌};
ghost use Rattle.volume_model.specs.Names.{IsName};

use crate::copy::TryCopy;
use out_of_memory::Memory;
use std::alloc::Global;
use std::marker::Model;

/// The name of a volume: 1 to 63 printable bytes, the first neither `@` nor `#`. It takes no memory. Contracts see it
/// as the list of its bytes.
#[derive(Debug, Drop)]
pub struct Name {
    bytes: [u8; 63],
    len: u8,
}

impl Model for Name {
    ghost use Rattle.std.specs.Prelude.{List, ℕ, ◌≤◌, take};
    ghost use Rattle.volume_model.specs.Names.{IsName};

    ghost Value = { List ℕ };

    ghost view = { λ n. take n.len n.bytes };

    ghost invariant = { λ n. (n.len ≤ 63) × IsName (take n.len n.bytes) };
}

impl Name {
    /// The name of these bytes, which must be a name.
    pub fn new(text: &[u8]) -> Name
        requires { IsName text.now }
        ensures { result ≡ text.now }
    {
        let mut bytes = [0; 63];
        bytes[..text.len()].copy_from_slice(text);
        Name {
            bytes,
            len: text.len() as u8,
        }
    }

    /// The bytes of the name, 1 to 63.
    pub fn bytes(&self) -> &[u8]
        ensures bytes { result.now ≡ self.now }
        ensures name { IsName self.now }
    {
        &self.bytes[..self.len as usize]
    }
}

impl TryCopy for Name {
    fn try_copy(&self, _alloc: Global) -> Result<Name, Memory> {
        Ok(Name {
            bytes: self.bytes,
            len: self.len,
        })
    }
}
