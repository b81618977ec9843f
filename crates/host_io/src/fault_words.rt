//! What is wrong with an image, in an administrator's words.

use crate::super_words::{ImageSizes, SuperWords};
use blob_meta::MetaFault;
use blob_tool::LoadFault;
use md_chain::ChainFault;
use std::fmt::{Display, Formatter, Result, Write};

/// What is wrong with an image of this size.
#[derive(Clone, Copy)]
pub(crate) struct FaultWords<'a> {
    pub fault: &'a LoadFault,
    pub sizes: ImageSizes,
}

/// What is wrong with a blob's chain of pages.
#[derive(Clone, Copy)]
struct ChainWords<'a>(&'a ChainFault);

/// What is wrong with a blob's metadata.
#[derive(Clone, Copy)]
struct MetaWords<'a>(&'a MetaFault);

impl<'a> Display for ChainWords<'a> {
    fn fmt<W: Write>(&self, f: &mut Formatter<W>) -> Result {
        match self.0 {
            ChainFault::LinkPastEnd { page, next } => write!(
                f,
                "metadata page {page} links to {next}, behind the metadata region's last page"
            ),
            ChainFault::Loop { page } => {
                write!(f, "its chain comes to metadata page {page} a second time")
            }
            ChainFault::ReadFault => write!(f, "a metadata page could not be read"),
            ChainFault::Unsound { page } => {
                write!(f, "the checksum of metadata page {page} is wrong")
            }
            ChainFault::WrongId { page, found } => {
                write!(f, "metadata page {page} is of the blob with id {found:#x}")
            }
            ChainFault::WrongSequence {
                page,
                found,
                wanted,
            } => {
                write!(
                    f,
                    "metadata page {page} has sequence {found}, wanted {wanted}"
                )
            }
            ChainFault::BadItem { page, at, kind } => write!(
                f,
                "metadata page {page} has a bad descriptor of type {kind} at byte {at} of its body"
            ),
            ChainFault::Memory => write!(f, "memory ran out"),
        }
    }
}

impl<'a> Display for MetaWords<'a> {
    fn fmt<W: Write>(&self, f: &mut Formatter<W>) -> Result {
        match self.0 {
            MetaFault::UnknownFlag { bits } => {
                write!(f, "it has flags that are not known, {bits:#x}")
            }
            MetaFault::TooLarge { slots } => write!(f, "{slots} slots, wanted at most 1048576"),
            MetaFault::ClusterOutside { cluster } => write!(
                f,
                "its map has cluster {cluster}, which is the store's own or behind its end"
            ),
            MetaFault::HoleInThick { slot } => {
                write!(f, "it is thick, but its slot {slot} has no cluster")
            }
            MetaFault::BadMark { length, .. } => { write!(f, "a mark of {length} bytes, wanted 8") }
            MetaFault::Memory => write!(f, "memory ran out"),
        }
    }
}

impl<'a> Display for FaultWords<'a> {
    fn fmt<W: Write>(&self, f: &mut Formatter<W>) -> Result {
        match self.fault {
            LoadFault::Super(fault) => {
                let words = SuperWords(*fault, self.sizes);
                write!(f, "{words}")
            }
            LoadFault::Chain { head, fault } => {
                let words = ChainWords(fault);
                write!(f, "volume @{head}: {words}")
            }
            LoadFault::Meta { head, fault } => {
                let words = MetaWords(fault);
                write!(f, "volume @{head}: {words}")
            }
            LoadFault::MapsTooLarge { slots } => {
                write!(
                    f,
                    "its volumes have {slots} slots together, wanted at most 16777216"
                )
            }
            LoadFault::NoParentBlob { blob, parent } => {
                write!(
                    f,
                    "volume @{blob}: its parent with id {parent:#x} is not there"
                )
            }
            LoadFault::WritableParent { blob, parent } => {
                write!(f, "volume @{blob}: its parent @{parent} is not read-only")
            }
            LoadFault::ParentLoop { blob } => {
                write!(f, "volume @{blob}: it is among its parents' parents")
            }
            LoadFault::Shared { cluster, a, b } => {
                write!(
                    f,
                    "cluster {cluster} is in the maps of volume @{a} and of volume @{b}"
                )
            }
            LoadFault::ReadFault => write!(f, "a page could not be read"),
            LoadFault::NoRoom { head, has, wants } => write!(
                f,
                "volume @{head}: {has} metadata pages are clear, wanted {wants} for its repair"
            ),
            LoadFault::Memory => write!(f, "memory ran out"),
        }
    }
}
