//! Texts that are read and printed, by sources and sinks that fail.

use out_of_memory::Memory;
use std::alloc::Global;
use std::test::Fail;
use streams::{ListSink, ListSource, PrintFault, print, read_text};
use volume_model::{Command, Entry, Reply};

fn entry(index: u32, reply: Reply) -> Entry {
    Entry {
        channel: 0,
        index,
        command: Command::Flush,
        reply,
    }
}

/// Prints an `ok` and a `fault` to a sink of which some writes fail.
fn printed(alloc: Global, fails: Vec<u64>) -> Result<(bool, ListSink), Memory> {
    let log = [entry(0, Reply::Ok), entry(1, Reply::Fault)];
    let mut sink = ListSink::new(alloc, 4096, fails)?;
    let is_stopped = matches!(print(alloc, &log, &mut sink), Err(PrintFault::Sink));
    Ok((is_stopped, sink))
}

#[test]
fn a_fault_of_the_sink_ends_the_printing(rt: HostRuntime) -> Result<(), Fail> {
    let (is_stopped, sink) = printed(rt.alloc(), Vec::new(rt.alloc()))?;
    assert!(rt; !is_stopped);
    assert_eq!(rt; sink.bytes(), b"0 0 ok\n0 1 fault\n".as_slice());
    let (is_stopped, sink) = printed(rt.alloc(), vec![in rt.alloc(); 2]?)?;
    assert!(rt; is_stopped);
    assert_eq!(rt; sink.bytes(), b"0 0 ok\n".as_slice());
    Ok(())
}

#[test]
fn a_text_is_read_to_its_end(rt: HostRuntime) -> Result<(), Fail> {
    let bytes = vec![in rt.alloc(); b'x'; 5000]?;
    let mut source = ListSource::new(bytes, Vec::new(rt.alloc()));
    assert_eq!(rt; read_text(rt.alloc(), &mut source)?.len(), 5000);
    Ok(())
}
