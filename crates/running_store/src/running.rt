//! The fields of a running store.

use crate::job::RunningJob;
use crate::rows::Row;
use blob_meta::{Chains, HeadMap, Metas};
use io_freeze::Guards;
use pools::{Bits, ClusterPool, PagePool};
use std::alloc::Global;
use super_block::Super;
use volume_model::{Entry, XattrList};

/// The device with what the store has of it in memory, the rows of the channels, the running job and the log so far.
pub struct Running<D> {
    pub alloc: Global,
    pub disk: D,
    /// The super block as the store was opened.
    pub sup: Super,
    /// Whether the device's super block says that the store was unloaded.
    pub is_clean: bool,
    /// The metadata once it is resolved; the marked blobs, as the device says them; and the places of each blob's
    /// chain.
    pub metas: Metas,
    pub marked: Metas,
    pub chains: Chains,
    /// The attributes as they are read.
    pub live: HeadMap<XattrList>,
    pub pages: PagePool,
    pub clusters: ClusterPool,
    /// Which metadata pages are heads, those of marked blobs among them.
    pub heads: Bits,
    /// Which blobs are frozen, and the generation of each.
    pub guards: Guards,
    /// Seventeen rows: those of the channels, and the fill's.
    pub rows: Vec<Row>,
    /// The channel whose command slots are filled for, on the fill's row.
    pub filling: Option<u8>,
    pub job: Option<RunningJob>,
    /// The number under which the next command is posted.
    pub serial: u64,
    pub entries: Vec<Entry>,
    /// How many entries each channel has.
    pub logged: [u32; 16],
    /// The clock after loading, and at the exit of the turn that logged each entry.
    pub marks: Vec<u64>,
    /// The length of the log before the turn in which a write or a flush failed.
    pub stopped: Option<u32>,
}
