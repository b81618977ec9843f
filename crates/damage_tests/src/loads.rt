//! What comes of loading an image.

use crate::images::{ID, Image, LAST, MdRow, SMALL, device};
use crate::parts::Part;
use page_disk::{CallKind, FaultDisk, PageDisk};
use running_store::Loaded;
use std::alloc::Global;
use std::test::Fail;
use unclean_load::{LoadFault, load};

/// The device that was loaded, and the fault where no store was.
pub(crate) fn loaded<D: PageDisk + Drop>(alloc: Global, disk: D) -> (D, Option<LoadFault>) {
    match load(alloc, disk) {
        Ok(loaded) => {
            let Loaded {
                disk,
                sup: _sup,
                metas: _metas,
                removed: _removed,
                marked: _marked,
                chains: _chains,
                repairs: _repairs,
                masks: _masks,
                quick: _quick,
            } = loaded;
            (disk, None)
        }
        Err((disk, fault)) => (disk, Some(fault)),
    }
}

/// Expects this fault, or `loaded`, or fails.
pub(crate) fn expect_fault(
    alloc: Global,
    fault: &Option<LoadFault>,
    wanted: &str,
) -> Result<(), Fail> {
    let found = match fault {
        None => format!(in alloc; "loaded")?,
        Some(fault) => format!(in alloc; "{fault:?}")?,
    };
    if found.as_str() != wanted {
        return Err(Fail::new(format_args!("it is {found}, and not {wanted}")));
    }
    Ok(())
}

/// Expects this fault of an image, or `loaded`, and at most so many reads.
pub(crate) fn expect_reads(
    alloc: Global,
    image: &Image<'_>,
    wanted: &str,
    most: u64,
) -> Result<(), Fail> {
    let disk = FaultDisk::new(device(alloc, image)?, Vec::new(alloc));
    let (disk, fault) = loaded(alloc, disk);
    expect_fault(alloc, &fault, wanted)?;
    let reads = disk.calls(CallKind::Read);
    if reads > most {
        return Err(Fail::new(format_args!("{reads} reads for {wanted}")));
    }
    Ok(())
}

/// Expects this of an image with three pages of masks and 16 metadata pages, of which each is read four times at most.
pub(crate) fn expect(alloc: Global, image: &Image<'_>, wanted: &str) -> Result<(), Fail> {
    expect_reads(alloc, image, wanted, 1 + 3 + 4 * 16)
}

/// The head of a blob of one page, and its descriptors.
pub(crate) type Blob = (u32, &'static [Part]);

/// Expects this of a store that has these blobs.
pub(crate) fn expect_blobs(alloc: Global, blobs: &[Blob], wanted: &str) -> Result<(), Fail> {
    let mut rows: Vec<MdRow> = Vec::new(alloc);
    for (head, parts) in blobs {
        rows.push((*head, ID + u64::from(*head), 0, LAST, parts))?;
    }
    let image = Image {
        rows: &rows,
        ..SMALL
    };
    expect(alloc, &image, wanted)
}
