//! How far the first command of a row has come.

/// A cluster that is claimed for an empty slot of a blob, and the blob's generation at the claim.
#[derive(Clone, Copy)]
pub struct OpenClaim {
    pub cluster: u32,
    pub head: u32,
    pub slot: u32,
    pub generation: u64,
}

/// What is decided of a row, of which its channel is to be told.
#[derive(Clone, Copy)]
pub enum Decision {
    /// Its command is logged.
    Answered,
    /// Its cluster was inserted.
    Won,
    /// Its claim was lost.
    Lost,
}

/// How far the first command of a row has come.
#[derive(Clone, Copy)]
pub enum Stage {
    /// It waits, and nothing was done for it.
    Idle,
    /// A write has found its slot empty.
    Claiming,
    /// Its claim has so many pages to copy.
    Copying(u32),
    /// All pages are copied.
    Ready,
    /// It is posted under a serial number.
    Posted(u64),
    /// The running job serves it.
    InJob,
    /// Something is decided of it.
    Decided(Decision),
    /// The channel has ended.
    Ended,
}
