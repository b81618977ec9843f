//! The checksum's published vectors, and a page that carries its sum.

use crc32c::{page_ok, sum};
use std::process::Abort;
use std::test::Fail;

/// Thirty-two bytes that rise from 0.
const RISING: [u8; 32] = [
    0, 1, 2, 3, 4, 5, 6, 7, 8, 9, 10, 11, 12, 13, 14, 15, 16, 17, 18, 19, 20, 21, 22, 23, 24, 25,
    26, 27, 28, 29, 30, 31,
];

/// Expects that a page of zeros isn't sound, and one with its sum is.
fn expect_sound_with_sum(rt: &impl Abort) {
    let mut page = [0; 4096];
    assert!(rt; !page_ok(&page));
    let last = sum(&page[..4092]).to_le_bytes();
    page[4092..].copy_from_slice(&last);
    assert!(rt; page_ok(&page));
}

#[test]
fn published_vectors(rt: HostRuntime) -> Result<(), Fail> {
    assert!(rt; sum(b"123456789") == 0xE306_9283);
    assert!(rt; sum(&[0; 32]) == 0x8A91_36AA);
    assert!(rt; sum(&[0xFF; 32]) == 0x62A8_AB43);
    assert!(rt; sum(&RISING) == 0x46DD_794E);
    expect_sound_with_sum(&rt);
    Ok(())
}
