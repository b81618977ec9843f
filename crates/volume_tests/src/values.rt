//! What wants memory gets it, and vectors from outside.

use std::alloc::Global;
use std::boxed::Box;
use std::process::Abort;
use std::test::Fail;
use volume_model::{
    Command, Df, Memory, Msg, Name, PageWord, Pair, RunList, Script, SlotRun, TryCopy, Xattr,
    XattrList, uuid_for,
};

const RUN: SlotRun = SlotRun {
    cluster: 5,
    length: 3,
};

fn one_run(alloc: Global) -> Result<RunList, Memory> {
    let mut list = RunList::new(alloc);
    list.push(RUN)?;
    Ok(list)
}

#[test]
fn lists_find_memory_for_their_copies(rt: HostRuntime) -> Result<(), Fail> {
    let mut copy = one_run(rt.alloc())?.try_copy(rt.alloc())?;
    assert!(rt; copy.pop() == Some(RUN));
    Ok(())
}

#[test]
fn lists_give_up_what_they_hold(rt: HostRuntime) -> Result<(), Fail> {
    let mut list = one_run(rt.alloc())?;
    let mut taken = RunList::from_vec(list.take_all(rt.alloc()));
    assert!(rt; list.len() == 0 && taken.get(0).copied() == Some(RUN));
    assert!(rt; taken.pop() == Some(RUN));
    Ok(())
}

#[test]
fn scripts_find_memory(rt: HostRuntime) -> Result<(), Fail> {
    let mut script = Script::new(rt.alloc());
    script.push(3, Command::Flush)?;
    assert!(rt; script.channels() == 4 && script.commands(3).len() == 1);
    assert!(rt; script.take(rt.alloc(), 3).len() == 1);
    Ok(())
}

/// Expects that the copy of a value is the value.
fn expect_copy<T: TryCopy + PartialEq + Drop>(
    rt: &impl Abort,
    alloc: Global,
    value: &T,
) -> Result<(), Fail> {
    assert!(rt; value.try_copy(alloc)? == *value);
    Ok(())
}

#[test]
fn plain_values_find_memory_for_their_copies(rt: HostRuntime) -> Result<(), Fail> {
    let df = Df {
        free_clusters: 1,
        clusters: 2,
        free_pages: 3,
        pages: 4,
    };
    let msg = Msg {
        channel: 3,
        serial: 8,
    };
    expect_copy(&rt, rt.alloc(), &7u32)?;
    expect_copy(&rt, rt.alloc(), &Pair { page: 7, count: 2 })?;
    expect_copy(&rt, rt.alloc(), &df)?;
    expect_copy(&rt, rt.alloc(), &msg)
}

#[test]
fn names_find_memory_for_their_copies(rt: HostRuntime) -> Result<(), Fail> {
    let name = Name::new(b"vol-1").try_copy(rt.alloc())?;
    assert!(rt; name.bytes() == b"vol-1".as_slice());
    Ok(())
}

fn copied_attribute(alloc: Global) -> Result<Xattr, Memory> {
    Xattr::new(alloc, b"a\0b", b"1")?.try_copy(alloc)
}

fn two_attributes(alloc: Global) -> Result<XattrList, Memory> {
    let xattr = copied_attribute(alloc)?;
    let mut list = XattrList::new(alloc);
    list.push(xattr)?;
    list.with_value(alloc, b"k", b"22\0z")
}

#[test]
fn attributes_find_memory(rt: HostRuntime) -> Result<(), Fail> {
    let list = two_attributes(rt.alloc())?;
    assert!(rt; list.told(b"a\0b") == b"1".as_slice() && list.told(b"k") == b"22".as_slice());
    Ok(())
}

#[test]
fn attributes_without_one_find_memory(rt: HostRuntime) -> Result<(), Fail> {
    let fewer = two_attributes(rt.alloc())?.without(rt.alloc(), b"a\0b")?;
    assert!(rt; fewer.len() == 1 && fewer.value_of(b"a\0b").is_none());
    Ok(())
}

// The example of version 5 in appendix A of RFC 9562: `www.example.com` in the namespace of domain names.
#[test]
fn default_uuids_are_version_5(rt: HostRuntime) -> Result<(), Fail> {
    let store = [
        0x6b, 0xa7, 0xb8, 0x10, 0x9d, 0xad, 0x11, 0xd1, 0x80, 0xb4, 0x00, 0xc0, 0x4f, 0xd4, 0x30,
        0xc8,
    ];
    let wanted = [
        0x2e, 0xd6, 0x65, 0x7d, 0xe9, 0x27, 0x56, 0x8b, 0x95, 0xe1, 0x26, 0x65, 0xa8, 0xae, 0xa6,
        0xa2,
    ];
    assert_eq!(rt; uuid_for(store, &Name::new(b"www.example.com")), wanted);
    Ok(())
}

fn copied_page(alloc: Global) -> Result<PageWord, Memory> {
    PageWord::Full(Box::new(alloc, [6; 4096])?).try_copy(alloc)
}

/// Whether a page is told by its bytes, which are sixes.
fn is_page_of_sixes(word: &PageWord) -> bool {
    match word {
        PageWord::Full(page) => **page == [6; 4096],
        PageWord::Fill(_) => false,
    }
}

#[test]
fn pages_find_memory_for_their_copies(rt: HostRuntime) -> Result<(), Fail> {
    let copy = copied_page(rt.alloc())?;
    assert!(rt; is_page_of_sixes(&copy));
    Ok(())
}
