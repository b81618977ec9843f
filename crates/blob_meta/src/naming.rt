//! What the values of a map from heads are called.

ghost use Rattle.std.specs.Prelude.{◌≡◌, ℕ, List, []};
ghost use Rattle.volume_model.specs.Xattrs.{told, name_key};

use crate::meta::Meta;
use volume_model::ListOf;

/// A value that may have a name. A map from heads asks it of its values, which it finds by their names too.
pub trait HasName {
    /// Its name; empty where it has none.
    ghost name_of: { Self → List ℕ };

    /// Its name; empty where it has none.
    fn name(&self) -> &[u8]
        ensures { result.now ≡ name_of self.now };
}

// The attribute `name` of a blob, up to its first NUL.
impl HasName for Meta {
    ghost name_of = { λ m. told m.xattrs name_key };

    fn name(&self) -> &[u8] {
        self.xattrs.told(b"name")
    }
}

// A list has no name: a map of lists is never asked for one.
impl<T> HasName for ListOf<T> {
    ghost name_of = { λ _. [] };

    fn name(&self) -> &[u8] {
        &[]
    }
}
