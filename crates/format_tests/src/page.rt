//! Fields of a page, and a metadata page.

use md_page::{MdPage, Unsound, read, rows_tile, write};
use page_fields::{Field, bytes_of_u32, bytes_of_u64, tiling, u32_of, u64_of};
use std::test::Fail;

#[test]
fn a_field_is_set_alone(rt: HostRuntime) {
    let mut page = [7u8; 4096];
    Field::<8, 4>::set(&mut page, &bytes_of_u32(0x0403_0201));
    Field::<4088, 8>::set(&mut page, &bytes_of_u64(0x0807_0605_0403_0201));
    assert!(rt; page[6..13] == [7, 7, 1, 2, 3, 4, 7]);
    assert!(rt; page[4086..] == [7, 7, 1, 2, 3, 4, 5, 6, 7, 8]);
    assert!(rt; u32_of(Field::<9, 4>::get(&page)) == 0x0704_0302);
    assert!(rt; u64_of(Field::<4087, 8>::get(&page)) == 0x0706_0504_0302_0107);
    tiling();
}

#[test]
fn the_first_page_of_an_empty_blob(rt: HostRuntime) -> Result<(), Fail> {
    rows_tile();
    let mut page = [0xAA; 4096];
    write(
        &MdPage {
            id: 0x1_0000_0003,
            sequence: 1,
            body: [0; 4072],
            next: 0xFFFF_FFFF,
        },
        &mut page,
    );
    let mut wanted = [0; 4096];
    wanted[0] = 3;
    wanted[4] = 1;
    wanted[8] = 1;
    wanted[4088..].copy_from_slice(&[0xFF, 0xFF, 0xFF, 0xFF, 0xCE, 0x09, 0x69, 0xA1]);
    assert!(rt; page == wanted);
    let read_back = read(&page)?;
    assert!(rt; read_back.id == 0x1_0000_0003);
    assert!(rt; read_back.sequence == 1 && read_back.next == 0xFFFF_FFFF);
    page[4095] ^= 1;
    assert!(rt; matches!(read(&page), Err(Unsound)));
    Ok(())
}
