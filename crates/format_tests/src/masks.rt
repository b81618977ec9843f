//! Sets of numbers, and the bytes of their masks.

ghost use Rattle.std.specs.Prelude.{◌≡◌, ◌<◌, length, IfOk};

use bit_array::{Bits, MaskFault, MaskReader, Memory, mask_pages, masks_read_back};
use std::alloc::Global;
use std::process::Abort;
use std::test::Fail;

/// Expects a set of numbers below `len` with so many in it, and the least that is not.
pub fn expect_set(rt: &impl Abort, bits: &Bits, len: u32, count: u32, clear: Option<u32>) {
    assert!(rt; bits.len() == len && bits.count() == count);
    assert!(rt; bits.first_clear() == clear);
}

#[test]
fn least_clear_number(rt: HostRuntime) -> Result<(), Fail> {
    expect_set(&rt, &Bits::of_first(rt.alloc(), 16, 5)?, 16, 5, Some(5));
    let mut bits = Bits::new(rt.alloc(), 2)?;
    expect_set(&rt, &bits, 2, 0, Some(0));
    bits.set(0);
    expect_set(&rt, &bits, 2, 1, Some(1));
    bits.set(1);
    bits.set(1);
    expect_set(&rt, &bits, 2, 2, None);
    bits.clear(0);
    expect_set(&rt, &bits, 2, 1, Some(0));
    assert!(rt; !bits.get(0) && bits.get(1));
    Ok(())
}

/// A set of numbers below `len` with these three.
pub fn set_of_three(alloc: Global, len: u32, a: u32, b: u32, c: u32) -> Result<Bits, Memory>
    requires a_in { a < len }
    requires b_in { b < len }
    requires c_in { c < len }
    ensures { IfOk result (λ bits. length bits ≡ len) }
{
    let mut bits = Bits::new(alloc, len)?;
    bits.set(a);
    bits.set(b);
    bits.set(c);
    Ok(bits)
}

#[test]
fn mask_of_sixteen_bits(rt: HostRuntime) -> Result<(), Fail> {
    let bits = set_of_three(rt.alloc(), 16, 0, 1, 9)?;
    let mut page = [0xff; 4096];
    bits.mask_page(0, 0, &mut page);
    assert!(rt; page[..8] == [0x00, 0x10, 0, 0, 0, 0x03, 0x02, 0]);
    assert!(rt; page[4095] == 0);
    Ok(())
}

/// The set below 32736 that two mask pages of type 2 say.
fn read_of_two(alloc: Global, first: &[u8; 4096], last: &[u8; 4096]) -> Result<Bits, Fail> {
    let mut reader = MaskReader::new(alloc, 2, 32736)?;
    reader.feed(first)?;
    reader.feed(last)?;
    Ok(reader.done())
}

/// Expects the three numbers of a set below 32736.
fn expect_three(rt: &impl Abort, bits: &Bits) {
    assert!(rt; bits.len() == 32736 && bits.count() == 3);
    assert!(rt; bits.get(0) && bits.get(32727) && bits.get(32735));
}

#[test]
fn last_page_of_one_byte_reads_back(rt: HostRuntime) -> Result<(), Fail> {
    masks_read_back();
    assert!(rt; mask_pages(32736) == 2 && mask_pages(1 << 24) == 513);
    let (mut first, mut last) = ([0xff; 4096], [0xff; 4096]);
    let bits = set_of_three(rt.alloc(), 32736, 0, 32727, 32735)?;
    bits.mask_page(2, 0, &mut first);
    bits.mask_page(2, 1, &mut last);
    assert!(rt; first[4095] == 0x80 && last[..2] == [0x80, 0]);
    expect_three(&rt, &read_of_two(rt.alloc(), &first, &last)?);
    Ok(())
}

/// Expects the fault of the first page that is fed to a reader of masks of this type and length.
fn expect_fault(
    rt: &impl Abort,
    (alloc, kind, len): (Global, u8, u32),
    page: &[u8; 4096],
    wanted: MaskFault,
) -> Result<(), Fail> {
    let mut reader = MaskReader::new(alloc, kind, len)?;
    assert!(rt; reader.feed(page) == Err(wanted));
    Ok(())
}

/// The set below 3 that a mask page of type 1 says.
fn read_of_one(alloc: Global, page: &[u8; 4096]) -> Result<Bits, Fail> {
    let mut reader = MaskReader::new(alloc, 1, 3)?;
    reader.feed(page)?;
    Ok(reader.done())
}

/// Expects three bits, which a mask page says of the eight of its byte.
fn expect_all_below_three(rt: &impl Abort, bits: &Bits) {
    assert!(rt; bits.count() == 3);
    let mut page = [0xff; 4096];
    bits.mask_page(1, 0, &mut page);
    assert!(rt; page[5] == 0x07);
}

#[test]
fn faults_and_bits_past_the_last(rt: HostRuntime) -> Result<(), Fail> {
    let mut page = [0; 4096];
    page[0] = 1;
    page[1] = 3;
    page[5] = 0xff;
    let (found, wanted) = (3, 4);
    let wrong_length = MaskFault::BadLength { found, wanted };
    expect_fault(
        &rt,
        (rt.alloc(), 2, 4),
        &page,
        MaskFault::BadType { found: 1 },
    )?;
    expect_fault(&rt, (rt.alloc(), 1, 4), &page, wrong_length)?;
    expect_all_below_three(&rt, &read_of_one(rt.alloc(), &page)?);
    Ok(())
}
