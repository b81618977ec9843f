//! Changes of metadata.

ghost use Rattle.std.specs.Prelude.{◌≡◌, IfOk};
ghost use Rattle.blob_meta.specs.Jobs.{job_of_one};

use crate::meta::Meta;
use out_of_memory::Memory;
use std::alloc::Global;
use volume_model::{ListOf, PlaceList};

/// New metadata of the blob at a head, or `None` where the blob is erased.
#[derive(Drop)]
pub struct Replacement {
    pub head: u32,
    pub new: Option<Meta>,
}

/// Replacements, in order.
pub type ReplacementList = ListOf<Replacement>;

/// A change of metadata, which is made replacement by replacement.
#[derive(Drop)]
pub struct Job {
    pub list: ReplacementList,
    /// The number of the replacement, from 1, with which the volumes change; 0 where they don't.
    pub commit: u32,
    /// The slots of the first replacement's new map that get a cluster of zeros each, in order.
    pub zero: PlaceList,
    /// The head of the blob that is neither read nor written until the job has ended.
    pub freeze: Option<u32>,
}

impl Job {
    /// The job that gives the blob at a head new metadata, and changes the volumes with that.
    pub fn of_one(alloc: Global, head: u32, new: Meta) -> Result<Job, Memory>
        ensures { IfOk result (λ job. job ≡ job_of_one head new) }
    {
        let mut list = ReplacementList::new(alloc);
        list.push(Replacement {
            head,
            new: Some(new),
        })?;
        Ok(Job {
            list,
            commit: 1,
            zero: PlaceList::new(alloc),
            freeze: None,
        })
    }
}
