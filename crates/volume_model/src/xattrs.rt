//! Extended attributes by their keys.

ghost use Rattle.std.specs.Prelude.{◌≡◌, ◌==◌, position, option_copied, IfOk};
ghost use Rattle.std.specs.List.{before_first};
ghost use Rattle.volume_model.specs.Xattrs as x;

use crate::copy::TryCopy;
use crate::lists::ListOf;
use crate::text::{Blobtext, Xattr, XattrList};
use out_of_memory::Memory;
use std::alloc::Global;

fn first_nul(bytes: &[u8]) -> Option<usize>
    ensures { result ≡ position (λ b. b == 0) bytes.now }
{
    bytes.iter().position(|b| *b == 0)
}

/// The bytes before the first NUL, or all where there is none.
fn until_nul(bytes: &[u8]) -> &[u8]
    ensures { result.now ≡ before_first (λ b. b == 0) bytes.now }
{
    match first_nul(bytes) {
        Some(end) => &bytes[..end],
        None => bytes,
    }
}

/// A text and one NUL, as the values of `name` and `uuid` are written.
pub fn with_nul(alloc: Global, text: &[u8]) -> Result<Vec<u8>, Memory>
    ensures { IfOk result (λ value. value.items ≡ x.with_nul text.now) }
{
    let mut value = Vec::from_slice(alloc, text)?;
    value.push(0)?;
    Ok(value)
}

impl ListOf<Xattr> {
    /// The value of an attribute, the first of that key; `None` exactly where there is none.
    pub fn value_of(&self, key: &[u8]) -> Option<&Blobtext>
        ensures { option_copied result ≡ x.value_of self.now key.now }
    {
        match self.as_slice().iter().find(|x| x.key.bytes() == key) {
            Some(xattr) => Some(&xattr.value),
            None => None,
        }
    }

    /// An attribute's value up to its first NUL; empty where the attribute isn't there.
    pub fn told(&self, key: &[u8]) -> &[u8]
        ensures { result.now ≡ x.told self.now key.now }
    {
        match self.value_of(key) {
            Some(value) => until_nul(value.bytes()),
            None => &[],
        }
    }

    /// A copy in which the attribute has this value: at the place of the first of that key, or last where there is
    /// none.
    pub fn with_value(&self, alloc: Global, key: &[u8], value: &[u8]) -> Result<XattrList, Memory>
        ensures { IfOk result (λ list. list ≡ x.with_value self.now key.now value.now) }
    {
        let mut list = ListOf::new(alloc);
        let mut is_set = false;
        for xattr in self.as_slice() {
            if !is_set && xattr.key.bytes() == key {
                list.push(Xattr::new(alloc, key, value)?)?;
                is_set = true;
            } else {
                list.push(xattr.try_copy(alloc)?)?;
            }
        }
        if !is_set {
            list.push(Xattr::new(alloc, key, value)?)?;
        }
        Ok(list)
    }

    /// A copy without the attributes of this key.
    pub fn without(&self, alloc: Global, key: &[u8]) -> Result<XattrList, Memory>
        ensures { IfOk result (λ list. list ≡ x.without self.now key.now) }
    {
        let mut list = ListOf::new(alloc);
        for xattr in self.as_slice() {
            if xattr.key.bytes() != key {
                list.push(xattr.try_copy(alloc)?)?;
            }
        }
        Ok(list)
    }
}
