//! The disk over the file of an image.

ghost use Rattle.std.specs.Prelude.{◌≡◌, [], IfOk};

use crate::ending::Ending;
use crate::failure::CallFailure;
use crate::image::{self, Access, OpenFault};
use blob_tool::Status;
use file_disk::{PageCalls, PageFile};
use gathered_file::GatheringFile;
use page_disk::Memory;
use std::io;

/// A disk over an open file, to which plain writes go in runs of pages.
pub type FileDisk = file_disk::FileDisk<GatheringFile<PageFile>>;

/// The file of an image, locked for as long as it is there, of which no call is recorded.
fn page_file(rt: &HostRuntime, image: &str, access: Access) -> Result<PageFile, OpenFault>
    ensures { IfOk result (λ file. ⟦<PageFile as PageCalls>⟧.calls file ≡ []) }
{
    Ok(PageFile::new(image::open(rt, image, access)?)?)
}

/// The disk over the file of an image, which is locked until it is closed; or how the program ends without it: the file
/// isn't had, or there is no memory for the runs.
pub fn open(rt: &HostRuntime, image: &str, access: Access) -> Result<FileDisk, Ending> {
    let file = match page_file(rt, image, access) {
        Ok(file) => file,
        Err(fault) => return Err(Ending::NotOpened(fault)),
    };
    match GatheringFile::new(rt.alloc(), file) {
        Ok(gathering) => Ok(FileDisk::over(gathering)),
        Err(Memory) => Err(Ending::Ran(Status::Memory)),
    }
}

/// Closes a disk: what it has kept goes to its file. Answers whether it did, and which call on the file failed, the
/// first write or flush or else the last read.
pub fn close(disk: FileDisk) -> (io::Result<()>, Option<CallFailure>) {
    let (file, written) = disk.into_file().close();
    (written, file.failure().map(CallFailure::from))
}
