//! What is known of volumes: the replies to `info`, `list` and `df`.

ghost use Rattle.std.specs.Prelude.{◌≡◌, ◌<◌, ◌^◌, IfOk, IfSome};
ghost use Rattle.blob_meta.specs.Parents.{parent_of as parent_said};
ghost use Rattle.super_block.specs.Faults.{IsFaultless};
ghost use Rattle.store_model.specs.Cases.{df_of};
ghost use Rattle.running_store.specs.Running.{view_of};
ghost use Rattle.running_store.specs.StoreView.{state_of};
ghost use Rattle.metadata_turns.specs.Infos as said;
ghost use Rattle.metadata_turns.specs.Infos.{IsQuestion, ParentsFit, Tells, TellsInfo};

use blob_meta::{HeadMap, Meta, Metas, find, is_super, parent_of};
use out_of_memory::Memory;
use page_disk::PageDisk;
use running_store::Running;
use std::alloc::Global;
use super_block::Super;
use volume_model::{Blobtext, Command, Info, InfoList, Reply, VolumeRef, XattrList};

/// The head of a blob's parent.
fn parent_head(meta: &Meta) -> Option<u32>
    requires { IfSome (parent_said meta.now) (λ parent. parent < 2 ^ 32) }
    ensures { result ≡ parent_said meta.now }
{
    match parent_of(meta) {
        Some(parent) => match u32::try_from(parent) {
            Ok(head) => Some(head),
            Err(_) => unreachable!(),
        },
        None => None,
    }
}

/// What its metadata and its live attributes say of the blob at a head.
fn info_of(alloc: Global, head: u32, meta: &Meta, live: &XattrList) -> Result<Info, Memory>
    requires { IfSome (parent_said meta.now) (λ parent. parent < 2 ^ 32) }
    ensures { IfOk result (λ info. info ≡ said.blob_info head meta.now live.now) }
{
    // As many attributes as don't fit the number find no memory either.
    let Ok(xattrs) = u32::try_from(live.len()) else {
        return Err(Memory);
    };
    Ok(Info {
        head,
        name: Blobtext::new(alloc, live.told(b"name"))?,
        uuid: Blobtext::new(alloc, live.told(b"uuid"))?,
        slots: u64::from(meta.map.len()),
        parent: parent_head(meta),
        thin: meta.flags.is_thin(),
        read_only: meta.flags.is_read_only(),
        xattrs,
    })
}

/// What is known of the blob at a head, if one is there.
fn info_at(
    alloc: Global,
    metas: &Metas,
    live: &HeadMap<XattrList>,
    head: u32,
) -> Result<Option<Info>, Memory>
    requires { ParentsFit metas.now }
    ensures { IfOk result (λ info. info ≡ said.info_at metas.now live.now head) }
{
    match (metas.get(head), live.get(head)) {
        (Some(meta), Some(live)) => Ok(Some(info_of(alloc, head, meta, live)?)),
        _ => Ok(None),
    }
}

/// What is told of the volume that is meant, or that none is.
fn told_of(
    alloc: Global,
    metas: &Metas,
    sup: &Super,
    live: &HeadMap<XattrList>,
    volume: &VolumeRef,
) -> Result<Reply, Memory>
    requires { ParentsFit metas.now }
    ensures { IfOk result (TellsInfo metas.now live.now sup.now volume.now) }
{
    let Some(head) = find(metas, sup, volume) else {
        return Ok(Reply::NoVolume);
    };
    match info_at(alloc, metas, live, head)? {
        Some(info) => Ok(Reply::Info(info)),
        None => Ok(Reply::NoVolume),
    }
}

/// What a list tells of a head: nothing of the super blob.
fn listed_at(
    alloc: Global,
    metas: &Metas,
    sup: &Super,
    live: &HeadMap<XattrList>,
    head: u32,
) -> Result<Option<Info>, Memory>
    requires { ParentsFit metas.now }
    ensures { IfOk result (λ info. info ≡ said.listed_at metas.now live.now sup.now head) }
{
    if is_super(sup, head) {
        Ok(None)
    } else {
        info_at(alloc, metas, live, head)
    }
}

/// All volumes but the super blob, by ascending head.
fn listed(
    alloc: Global,
    metas: &Metas,
    sup: &Super,
    live: &HeadMap<XattrList>,
) -> Result<InfoList, Memory>
    requires { ParentsFit metas.now }
    ensures { IfOk result (λ infos. infos ≡ said.listed metas.now live.now sup.now) }
{
    let mut infos = InfoList::new(alloc);
    let end = sup.md_len;
    let mut from = 0;
    while let Some(head) = metas.next_below(from, end) {
        if let Some(info) = listed_at(alloc, metas, sup, live, head)? {
            infos.push(info)?;
        }
        from = head + 1;
    }
    Ok(infos)
}

/// The reply to a command that asks what there is.
pub(crate) fn reply_to<D: PageDisk>(
    running: &Running<D>,
    command: &Command,
) -> Result<Reply, Memory>
    requires faultless { IsFaultless running.now.sup }
    requires parents { ParentsFit running.now.metas }
    requires question { IsQuestion command.now }
    ensures { IfOk result (Tells running.now.metas running.now.live running.now.sup
        (df_of (state_of D.PageDisk (view_of running.now))) command.now) }
{
    let Running {
        alloc,
        metas,
        sup,
        live,
        ..
    } = running;
    match command {
        Command::Info { volume } => told_of(*alloc, metas, sup, live, volume),
        Command::List => Ok(Reply::List(listed(*alloc, metas, sup, live)?)),
        Command::Df => Ok(Reply::Df(running.df())),
        _ => unreachable!(),
    }
}
