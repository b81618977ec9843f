//! The file of an image, opened and locked.

use crate::held_device::{DeviceHolder, holder_of};
use std::fs::{File, FileType, TryLockError};
use std::os::unix::fs::{FileExt, FileTypeExt};
use std::{fs, io};

/// What a command does with its image.
#[derive(Clone, Copy, Debug, PartialEq, Eq)]
pub enum Access {
    /// It reads alone.
    Read,
    /// It writes too.
    Write,
    /// It writes a store into an image that has none.
    WriteNew,
}

/// What a path names that is no image.
#[derive(Clone, Copy, Debug, PartialEq, Eq)]
pub enum OtherFile {
    Directory,
    Fifo,
    Socket,
    CharacterDevice,
    Unknown,
}

/// Why an image isn't had.
#[derive(Debug, Drop)]
pub enum OpenFault {
    /// It is neither a regular file nor a block device.
    NoImage(OtherFile),
    /// Another program uses it: one of the two writes.
    InUse,
    /// It is a block device that is to be written, and the system has it.
    Held(DeviceHolder),
    /// It is such a block device, and it isn't known whether the system has it.
    HolderUnknown(io::Error),
    /// It has a store already, and isn't to have one.
    HasStore,
    /// It could not be opened, locked or read, or, to be written, synced.
    Failed(io::Error),
}

impl From<io::Error> for OpenFault {
    ghost use Rattle.std.specs.Prelude.{◌≡◌};
    ghost use Rattle.host_io.specs.declared.image.OpenFault.TheVariants as opening;

    ghost from_gives = { λ error fault. fault ≡ opening.Failed error };

    fn from(error: io::Error) -> OpenFault {
        OpenFault::Failed(error)
    }
}

impl From<TryLockError> for OpenFault {
    ghost use Rattle.std.specs.Prelude.{◌≡◌};
    ghost use Rattle.host_io.specs.OpenFaults.{of_locking};

    ghost from_gives = { λ error fault. fault ≡ of_locking error };

    fn from(error: TryLockError) -> OpenFault {
        match error {
            TryLockError::WouldBlock => OpenFault::InUse,
            TryLockError::Error(error) => OpenFault::Failed(error),
        }
    }
}

/// Looks at the kind of file that an image is to have, before it is opened, since opening a FIFO would wait.
fn check_kind(kind: &FileType) -> Result<(), OpenFault> {
    if kind.is_file() || kind.is_block_device() {
        return Ok(());
    }
    Err(OpenFault::NoImage(if kind.is_dir() {
        OtherFile::Directory
    } else if kind.is_fifo() {
        OtherFile::Fifo
    } else if kind.is_socket() {
        OtherFile::Socket
    } else if kind.is_char_device() {
        OtherFile::CharacterDevice
    } else {
        OtherFile::Unknown
    }))
}

/// Refuses a block device that the system has: there is no option with which to open it for this program alone.
fn check_holder(rt: &HostRuntime, file: &File) -> Result<(), OpenFault> {
    let metadata = file.metadata()?;
    if !metadata.file_type().is_block_device() {
        return Ok(());
    }
    match holder_of(rt, &metadata) {
        Ok(None) => Ok(()),
        Ok(Some(holder)) => Err(OpenFault::Held(holder)),
        Err(error) => Err(OpenFault::HolderUnknown(error)),
    }
}

/// Refuses an image that begins with the signature of a super block.
fn check_new(file: &File) -> Result<(), OpenFault> {
    let mut signature = [0; 8];
    match file.read_exact_at(&mut signature, 0) {
        Ok(()) if signature == *b"SPDKBLOB" => Err(OpenFault::HasStore),
        Ok(()) => Ok(()),
        Err(error) if error.kind() == io::ErrorKind::UnexpectedEof => Ok(()),
        Err(error) => Err(OpenFault::Failed(error)),
    }
}

/// The file of an image, locked until it is closed: against all others by who writes it, by who reads it alone against
/// those who write. It doesn't wait. What was written to it before is lasting where it is to be written.
pub fn open(rt: &HostRuntime, image: &str, access: Access) -> Result<File, OpenFault> {
    check_kind(&fs::metadata(rt, image)?.file_type())?;
    let writes = access != Access::Read;
    let file = File::options().read(true).write(writes).open(rt, image)?;
    match access {
        Access::Read => file.try_lock_shared()?,
        Access::Write | Access::WriteNew => file.try_lock()?,
    }
    if writes {
        check_holder(rt, &file)?;
        file.sync_all()?;
    }
    if access == Access::WriteNew {
        check_new(&file)?;
    }
    Ok(file)
}

#[cfg(test)]
mod tests {
    use super::*;
    use std::test::Fail;
    use std::{env, process};

    /// Who has the image, who wants it, and whether it is had.
    const CASES: [(Access, Access, bool); 4] = [
        (Access::Write, Access::Write, false),
        (Access::Write, Access::Read, false),
        (Access::Read, Access::Write, false),
        (Access::Read, Access::Read, true),
    ];

    #[test]
    fn one_program_writes_an_image_or_several_read_it(rt: HostRuntime) -> Result<(), Fail> {
        let folder = env::temp_dir(&rt)?;
        let name = format!(in rt.alloc(); "blobtool_lock_{}", process::id(rt.process()))?;
        let path = folder.join(rt.alloc(), name.as_str())?;
        let Some(image) = path.to_str() else {
            return Err(Fail::new("the folder is no text"));
        };
        assert!(rt; matches!(open(&rt, image, Access::Read), Err(OpenFault::Failed(_))));
        fs::write(&rt, path.as_path(), b"")?;
        for (first, second, is_had) in &CASES {
            let had = open(&rt, image, *first);
            assert!(rt; had.is_ok());
            let wanted = open(&rt, image, *second);
            match wanted {
                Ok(_) => assert!(rt; *is_had),
                Err(OpenFault::InUse) => assert!(rt; !*is_had),
                Err(_) => return Err(Fail::new("it failed")),
            }
            drop(had);
        }
        assert!(rt; open(&rt, image, Access::Write).is_ok());
        fs::remove_file(&rt, path.as_path())?;
        Ok(())
    }

    /// What the open of a path that is no image says of it.
    fn kind_of(rt: &HostRuntime, path: &str) -> Option<OtherFile> {
        match open(rt, path, Access::Read) {
            Err(OpenFault::NoImage(kind)) => Some(kind),
            _ => None,
        }
    }

    #[test]
    fn an_image_is_a_regular_file_or_a_block_device(rt: HostRuntime) -> Result<(), Fail> {
        let folder = env::temp_dir(&rt)?;
        let Some(path) = folder.to_str() else {
            return Err(Fail::new("the folder is no text"));
        };
        assert_eq!(rt; kind_of(&rt, path), Some(OtherFile::Directory));
        assert_eq!(rt; kind_of(&rt, "/dev/null"), Some(OtherFile::CharacterDevice));
        Ok(())
    }

    /// What an image begins with, and whether a new store may be written into it.
    const BEGINS: [(&[u8], bool); 4] = [
        (b"SPDKBLOB", false),
        (b"SPDKBLOB and more", false),
        (b"SPDKBLO", true),
        (b"SPDKBLOC", true),
    ];

    #[test]
    fn an_image_with_a_store_gets_no_new_one(rt: HostRuntime) -> Result<(), Fail> {
        let folder = env::temp_dir(&rt)?;
        let name = format!(in rt.alloc(); "blobtool_new_{}", process::id(rt.process()))?;
        let path = folder.join(rt.alloc(), name.as_str())?;
        let Some(image) = path.to_str() else {
            return Err(Fail::new("the folder is no text"));
        };
        for (bytes, is_had) in &BEGINS {
            fs::write(&rt, path.as_path(), *bytes)?;
            assert!(rt; open(&rt, image, Access::Write).is_ok());
            match open(&rt, image, Access::WriteNew) {
                Ok(_) => assert!(rt; *is_had),
                Err(OpenFault::HasStore) => assert!(rt; !*is_had),
                Err(_) => return Err(Fail::new("it failed")),
            }
        }
        fs::remove_file(&rt, path.as_path())?;
        Ok(())
    }
}
