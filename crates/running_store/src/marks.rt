//! The marks of blobs.

use crate::running::Running;

impl<D> Running<D> {
    ghost use Rattle.std.specs.Prelude.{◌↔◌, IsTrue};
    ghost use Rattle.blob_meta.specs.Repairs.{HasNoMarks};
    ghost use Rattle.running_store.specs.StoreView.{base_of, AreResolved};

    /// Whether no blob has a mark: nothing is left to repair.
    pub fn is_unmarked(&self) -> bool
        requires { AreResolved self.now.metas self.now.marked }
        ensures { IsTrue result ↔ HasNoMarks (base_of self.now.metas self.now.marked) }
    {
        self.marked.next_from(0).is_none()
    }
}
