//! What jobs on metadata show, as contracts of functions that do nothing.

ghost use Rattle.std.specs.Prelude.{ℕ};
ghost use Rattle.page_disk.specs.Disk.{Image};
ghost use Rattle.volume_model.specs.Volumes.{Fixed};
ghost use Rattle.volume_model.specs.Xattrs.{Text, Xattrs};
ghost use Rattle.volume_model.specs.declared.command.VolumeRef.{VolumeRef};
ghost use Rattle.blob_meta.specs.declared.meta.Meta.{Meta};
ghost use Rattle.super_block.specs.declared.page.Super.{Super};
ghost use Rattle.inflate_delete.specs.declared.filling.FillKind.{FillKind};
ghost use Rattle.shown_volumes.specs.StoredLaws.{StoreJobs, StayStored};
ghost use Rattle.shown_volumes.specs.Maps.{Map, Metas};
ghost use Rattle.shown_volumes.specs.JobLaws.{ShowsClone, ShowsDelete, ShowsErase, ShowsFill, ShowsSnapshot};

/// Up to the commit of a snapshot's job metadata shows the volumes as they were, and from then on those of the step.
pub fn snapshots_show()
    ensures { (f : Fixed) (base : Metas) (live : Map Xattrs) (image : Image) (volume : VolumeRef) (name : Text)
        (of head : ℕ) (old : Meta) (xattrs : Xattrs)
        → ShowsSnapshot f base live image volume name of head old xattrs }
{}

/// Up to the commit of a clone's job metadata shows the volumes as they were, and from then on those of the step.
pub fn clones_show()
    ensures { (f : Fixed) (base : Metas) (live : Map Xattrs) (image : Image) (volume : VolumeRef) (name : Text)
        (of head : ℕ) (old : Meta) (xattrs : Xattrs)
        → ShowsClone f base live image volume name of head old xattrs }
{}

/// Up to the commit of a delete's job metadata shows the volumes as they were, and from then on those of the step.
pub fn deletes_show()
    ensures erased { (f : Fixed) (base : Metas) (live : Map Xattrs) (image : Image) (volume : VolumeRef) (of : ℕ)
        (old : Meta) → ShowsErase f base live image volume of old }
    ensures handed_on { (f : Fixed) (base : Metas) (live : Map Xattrs) (image : Image) (volume : VolumeRef) (of : ℕ)
        (old : Meta) (clone : ℕ) (heir : Meta) → ShowsDelete f base live image volume of old clone heir }
{}

/// The job at the end of an inflate or a decouple, which is one replacement, shows the volumes of the step.
pub fn fills_show()
    ensures { (f : Fixed) (base : Metas) (live : Map Xattrs) (image : Image) (volume : VolumeRef) (of : ℕ) (old : Meta)
        (kind : FillKind) → ShowsFill f base live image volume of old kind }
{}

/// The store can hold each new metadata of the jobs, and what each part of a job leaves, which is steady once it is
/// resolved.
pub fn jobs_are_stored()
    ensures jobs { (s : Super) → StoreJobs s }
    ensures parts { (s : Super) → StayStored s }
{}
