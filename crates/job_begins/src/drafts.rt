//! New metadata that is to be laid on pages.

ghost use Rattle.std.specs.Prelude.{◌≡◌, All, is_some, length, IfOk};
ghost use Rattle.md_chain.specs.Packing.{FitsPage};
ghost use Rattle.job_begins.specs.Begins.{behind_in, needed};
ghost use Rattle.job_begins.specs.Drafts.{draft_needs, IsDraft, IsDraftOf, IsPlannedOn};

use crate::preparing::{Laid, behind_head, items_of, lay, pages_needed};
use blob_meta::Meta;
use descriptors::ItemList;
use out_of_memory::Memory;
use running_store::{Effects, Planned};
use std::alloc::Global;

/// New metadata of the blob at a head, the items by which it is written, and what is done besides.
pub(crate) struct Draft {
    pub(crate) head: u32,
    pub(crate) new: Meta,
    pub(crate) items: ItemList,
    pub(crate) effects: Effects,
}

// By hand, as for the other values that a job is made of: to let one go is one call then, at each place where control
// leaves, and not a call for each of its fields, which would have to be proved there.
impl Drop for Draft {
    fn drop(self) {
        let Draft {
            head: _,
            new: _,
            items: _,
            effects: _,
        } = self;
    }
}

impl Draft {
    /// The draft of this metadata.
    pub(crate) fn new(
        alloc: Global,
        head: u32,
        new: Meta,
        effects: Effects,
    ) -> Result<Draft, Memory>
        requires xattrs { All FitsPage new.xattrs }
        requires internal { All FitsPage new.internal }
        ensures { IfOk result (IsDraftOf head new effects) }
    {
        let items = items_of(alloc, &new)?;
        Ok(Draft {
            head,
            new,
            items,
            effects,
        })
    }

    /// The drafts of two blobs' metadata, each with its head and with what is done besides.
    pub(crate) fn two(
        alloc: Global,
        one: (u32, Meta, Effects),
        other: (u32, Meta, Effects),
    ) -> Result<(Draft, Draft), Memory>
        requires one { All FitsPage one.1.xattrs × All FitsPage one.1.internal }
        requires other { All FitsPage other.1.xattrs × All FitsPage other.1.internal }
        ensures { IfOk result (λ both. IsDraftOf one.0 one.1 one.2 both.0
            × IsDraftOf other.0 other.1 other.2 both.1) }
    {
        let (head, new, effects) = one;
        let (other_head, other_new, other_effects) = other;
        let one = Draft::new(alloc, head, new, effects)?;
        let other = Draft::new(alloc, other_head, other_new, other_effects)?;
        Ok((one, other))
    }

    /// How many pages its chain takes: those behind the head, and the head's where the blob is new.
    pub(crate) fn needs(&self) -> u32
        requires { IsDraft self.now }
        ensures { result ≡ draft_needs self.now }
    {
        pages_needed(&self.items, self.effects.rooms.chain.is_some())
    }

    /// The metadata, laid on its head and on these pages, of which the first is the head's where the blob is new.
    pub(crate) fn lay(self, alloc: Global, taken: &[u32]) -> Result<Planned, Memory>
        requires draft { IsDraft self }
        requires places { length taken.now ≡ draft_needs self }
        ensures { IfOk result (IsPlannedOn self (behind_in (is_some self.effects.rooms.chain) taken.now)) }
    {
        let makes = self.effects.rooms.chain.is_some();
        let Draft {
            head,
            new,
            items,
            effects,
        } = self;
        let Laid { chain, pages } = lay(alloc, &items, head, behind_head(taken, makes))?;
        Ok(Planned {
            head,
            new,
            effects,
            chain,
            pages,
        })
    }
}
