//! The lines on an image that isn't had, and on a call of the system that failed.

use crate::expecting::expect;
use blob_tool::Status;
use host_io::{CallFailure, DeviceHolder, Ending, OpenFault, OtherFile, SystemCall};
use std::io;
use std::io::ErrorKind;
use std::test::Fail;

static FILE_LINES: [(OtherFile, &str); 5] = [
    (
        OtherFile::Directory,
        "it is a directory, wanted a regular file or a block device",
    ),
    (
        OtherFile::Fifo,
        "it is a FIFO, wanted a regular file or a block device",
    ),
    (
        OtherFile::Socket,
        "it is a socket, wanted a regular file or a block device",
    ),
    (
        OtherFile::CharacterDevice,
        "it is a character device, wanted a regular file or a block device",
    ),
    (
        OtherFile::Unknown,
        "it is a file of an unknown kind, wanted a regular file or a block device",
    ),
];

static HOLDER_LINES: [(DeviceHolder, &str); 3] = [
    (
        DeviceHolder::Mount,
        "it is mounted, or a part of it, wanted a block device that nobody uses",
    ),
    (
        DeviceHolder::Swap,
        "it is swap space, or a part of it, wanted a block device that nobody uses",
    ),
    (
        DeviceHolder::Device,
        "another device is made of it, or a part of it, wanted a block device that nobody uses",
    ),
];

static CALL_LINES: [(SystemCall, &str); 5] = [
    (
        SystemCall::ReadPage(17),
        "reading page 17 of the image failed: No space left on device (os error 28)",
    ),
    (
        SystemCall::WritePage(17),
        "writing page 17 of the image failed: No space left on device (os error 28)",
    ),
    (
        SystemCall::Flush,
        "flushing the image failed: No space left on device (os error 28)",
    ),
    (
        SystemCall::WriteTarget(17),
        "writing page 17 of the target failed: No space left on device (os error 28)",
    ),
    (
        SystemCall::FlushTarget,
        "flushing the target failed: No space left on device (os error 28)",
    ),
];

/// A call on the image that failed since the file system is full.
fn full(call: SystemCall) -> Option<CallFailure> {
    let error = io::Error::from_raw_os_error(28);
    Some(CallFailure { call, error })
}

#[test]
fn images_that_are_not_had_are_told(rt: HostRuntime) -> Result<(), Fail> {
    for (kind, text) in &FILE_LINES {
        let ending = Ending::NotOpened(OpenFault::NoImage(*kind));
        expect(&rt, ending, None, 6, text)?;
    }
    for (holder, text) in &HOLDER_LINES {
        let ending = Ending::NotOpened(OpenFault::Held(*holder));
        expect(&rt, ending, None, 6, text)?;
    }
    let cases = [
        (
            OpenFault::InUse,
            "another program has it locked, wanted an image that nobody uses",
        ),
        (
            OpenFault::HolderUnknown(io::Error::from_raw_os_error(13)),
            "asking /proc and /sys whether the block device is in use failed: Permission denied (os error 13)",
        ),
        (
            OpenFault::HasStore,
            "it has a store already, wanted none with --new",
        ),
        (
            OpenFault::Failed(io::Error::from_raw_os_error(2)),
            "opening it failed: No such file or directory (os error 2)",
        ),
    ];
    for (fault, text) in cases {
        expect(&rt, Ending::NotOpened(fault), None, 6, text)?;
    }
    Ok(())
}

#[test]
fn calls_that_failed_are_told(rt: HostRuntime) -> Result<(), Fail> {
    for (call, text) in &CALL_LINES {
        expect(
            &rt,
            Ending::Ran(Status::Device { at: 0 }),
            full(*call),
            6,
            text,
        )?;
    }
    let cases = [
        (
            Status::Device { at: 5 },
            full(SystemCall::Flush),
            6,
            "flushing the image failed: No space left on device (os error 28), after 5 commands",
        ),
        (
            Status::Device { at: 5 },
            None,
            6,
            "a call on the image failed, after 5 commands",
        ),
        (
            Status::ScriptRead,
            full(SystemCall::ReadInput),
            4,
            "reading standard input failed: No space left on device (os error 28)",
        ),
        (Status::ScriptRead, None, 4, "reading standard input failed"),
        (
            Status::OutWrite,
            full(SystemCall::WriteOutput),
            5,
            "writing standard output failed: No space left on device (os error 28)",
        ),
        (Status::OutWrite, None, 5, "writing standard output failed"),
    ];
    for (status, failure, code, text) in cases {
        expect(&rt, Ending::Ran(status), failure, code, text)?;
    }
    Ok(())
}

#[test]
fn errors_without_a_number_of_the_system_are_told(rt: HostRuntime) -> Result<(), Fail> {
    let cases = [
        (
            ErrorKind::UnexpectedEof,
            "reading page 17 of the image failed: it ends before that",
        ),
        (
            ErrorKind::WriteZero,
            "reading page 17 of the image failed: it was not taken whole",
        ),
        (
            ErrorKind::Interrupted,
            "reading page 17 of the image failed: signals cut it off each time",
        ),
    ];
    for (kind, text) in cases {
        let failure = CallFailure {
            call: SystemCall::ReadPage(17),
            error: io::Error::from(kind),
        };
        expect(
            &rt,
            Ending::Ran(Status::Device { at: 0 }),
            Some(failure),
            6,
            text,
        )?;
    }
    Ok(())
}
