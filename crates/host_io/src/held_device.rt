//! Whether a block device is in use by the system, as far as it tells: by a mount, as swap space, or as a part of
//! another device.

use std::fs::Metadata;
use std::io::ErrorKind;
use std::os::unix::fs::{FileTypeExt, MetadataExt};
use std::{fs, io};

/// Who has a block device.
#[derive(Clone, Copy, Debug, PartialEq, Eq)]
pub enum DeviceHolder {
    /// It is mounted, or a part of it is.
    Mount,
    /// It is swap space, or a part of it is.
    Swap,
    /// Another device is made of it, as a logical volume or a RAID.
    Device,
}

/// The number of a block device, as the system writes it: `8:1`.
#[derive(Clone, Copy, PartialEq, Eq)]
struct DeviceNumber {
    major: u64,
    minor: u64,
}

impl DeviceNumber {
    /// That of the device that has this metadata.
    fn of(device: &Metadata) -> DeviceNumber {
        let number = device.rdev();
        DeviceNumber {
            major: (number >> 8) & 0xfff | (number >> 32) & 0xffff_f000,
            minor: number & 0xff | (number >> 12) & 0xffff_ff00,
        }
    }

    /// The number that a text says.
    fn said(text: &str) -> Option<DeviceNumber> {
        let (major, minor) = text.trim().split_once(':')?;
        match (major.parse::<u64>(), minor.parse::<u64>()) {
            (Ok(major), Ok(minor)) => Some(DeviceNumber { major, minor }),
            _ => None,
        }
    }

    /// Whether this path is of the device with this number.
    fn is_of(self, rt: &HostRuntime, path: &str) -> bool {
        match fs::metadata(rt, path) {
            Ok(found) => found.file_type().is_block_device() && DeviceNumber::of(&found) == self,
            Err(_) => false,
        }
    }
}

/// The text of a file of the system; an empty one where there is no such file.
fn system_text(rt: &HostRuntime, path: &str) -> io::Result<String> {
    match fs::read(rt, path) {
        Ok(bytes) => Ok(String::from_utf8_lossy(rt.alloc(), bytes.as_slice())?),
        Err(error) => match error.kind() {
            ErrorKind::NotFound | ErrorKind::NotADirectory => Ok(String::new(rt.alloc())),
            _ => Err(error),
        },
    }
}

/// The number of the partition that this folder of the system is of, if it is of one.
fn partition_in(rt: &HostRuntime, folder: &str) -> io::Result<Option<DeviceNumber>> {
    let alloc = rt.alloc();
    let place = format!(in alloc; "{folder}/partition")?;
    if system_text(rt, place.as_str())?.is_empty() {
        return Ok(None);
    }
    let number = format!(in alloc; "{folder}/dev")?;
    Ok(DeviceNumber::said(system_text(rt, number.as_str())?.as_str()))
}

/// The entries of a folder of the system; none where there is no such folder.
fn entries(rt: &HostRuntime, folder: &str) -> io::Result<Vec<String>> {
    let mut names = Vec::new(rt.alloc());
    let found = match fs::read_dir(rt, folder) {
        Ok(found) => found,
        Err(error) if error.kind() == ErrorKind::NotFound => return Ok(names),
        Err(error) => return Err(error),
    };
    for entry in found {
        let entry = entry?;
        names.push(String::from_str(rt.alloc(), entry.file_name())?)?;
    }
    Ok(names)
}

/// The device itself, its partitions, and the disk whose partition it is.
fn related(rt: &HostRuntime, device: DeviceNumber, folder: &str) -> io::Result<Vec<DeviceNumber>> {
    let alloc = rt.alloc();
    let mut numbers = Vec::new(alloc);
    numbers.push(device)?;
    if partition_in(rt, folder)?.is_some() {
        let disk = format!(in alloc; "{folder}/../dev")?;
        if let Some(number) = DeviceNumber::said(system_text(rt, disk.as_str())?.as_str()) {
            numbers.push(number)?;
        }
    }
    for name in &entries(rt, folder)? {
        let part = format!(in alloc; "{folder}/{name}")?;
        if let Some(number) = partition_in(rt, part.as_str())? {
            numbers.push(number)?;
        }
    }
    Ok(numbers)
}

/// Whether a line of the table of mounts is of this device: by its number, or by what was mounted.
fn is_mount_of(rt: &HostRuntime, line: &str, device: DeviceNumber) -> bool {
    let number = line.split_whitespace().nth(2).unwrap_or("");
    if DeviceNumber::said(number) == Some(device) {
        return true;
    }
    match line.split_once(" - ") {
        Some((_, kind_and_source)) => {
            let source = kind_and_source.split_whitespace().nth(1).unwrap_or("");
            source.starts_with('/') && device.is_of(rt, source)
        }
        None => false,
    }
}

/// Whether the table of mounts has this device.
fn is_mounted(rt: &HostRuntime, device: DeviceNumber, mounts: &str) -> bool {
    for line in mounts.lines() {
        if is_mount_of(rt, line, device) {
            return true;
        }
    }
    false
}

/// Whether the table of swap spaces has this device.
fn is_swap(rt: &HostRuntime, device: DeviceNumber, swaps: &str) -> bool {
    for line in swaps.lines() {
        let path = line.split_whitespace().next().unwrap_or("");
        if path.starts_with('/') && device.is_of(rt, path) {
            return true;
        }
    }
    false
}

/// Whether another device is made of this one.
fn is_part(rt: &HostRuntime, device: DeviceNumber) -> io::Result<bool> {
    let DeviceNumber { major, minor } = device;
    let folder = format!(in rt.alloc(); "/sys/dev/block/{major}:{minor}/holders")?;
    Ok(!entries(rt, folder.as_str())?.is_empty())
}

/// Who has the block device with this metadata, or a partition of it, or the disk whose partition it is. The table of
/// mounts has to be there: without it nothing is known.
pub(crate) fn holder_of(rt: &HostRuntime, device: &Metadata) -> io::Result<Option<DeviceHolder>> {
    let device = DeviceNumber::of(device);
    let DeviceNumber { major, minor } = device;
    let folder = format!(in rt.alloc(); "/sys/dev/block/{major}:{minor}")?;
    let mounts = fs::read(rt, "/proc/self/mountinfo")?;
    let mounts = String::from_utf8_lossy(rt.alloc(), mounts.as_slice())?;
    let swaps = system_text(rt, "/proc/swaps")?;
    for number in &related(rt, device, folder.as_str())? {
        if is_mounted(rt, *number, mounts.as_str()) {
            return Ok(Some(DeviceHolder::Mount));
        }
        if is_swap(rt, *number, swaps.as_str()) {
            return Ok(Some(DeviceHolder::Swap));
        }
        if is_part(rt, *number)? {
            return Ok(Some(DeviceHolder::Device));
        }
    }
    Ok(None)
}

#[cfg(test)]
mod tests {
    use super::*;

    /// The numbers of a device, and whether the line of a table of mounts is of it.
    static MOUNTS: [(u64, u64, bool); 3] = [(8, 1, true), (8, 17, false), (1, 8, false)];

    #[test]
    fn a_mounted_device_is_found_by_its_number(rt: HostRuntime) {
        let line = "36 35 8:1 / /mnt rw,noatime master:1 - ext4 /dev/nothing rw,errors=continue";
        for (major, minor, is_mounted) in &MOUNTS {
            let device = DeviceNumber {
                major: *major,
                minor: *minor,
            };
            assert_eq!(rt; is_mount_of(&rt, line, device), *is_mounted);
            assert!(rt; !is_mount_of(&rt, "", device));
        }
        assert!(rt; DeviceNumber::said("8:1\n").is_some() && DeviceNumber::said("8:x").is_none());
    }
}
