//! The uuid of a store, and those that names have in it.

use crate::plan_stores::store_of_five;
use lvol_store::{parse_uuid, store_uuid, uuid_for};
use std::test::Fail;
use volume_model::Name;

#[test]
fn a_store_has_its_super_blobs_uuid(rt: HostRuntime) -> Result<(), Fail> {
    let uuid = parse_uuid("5f2b4e66-0d0c-4c1e-9a55-3f0a7c2d9b10")?;
    let store = store_of_five(rt.alloc())?;
    assert_eq!(rt; store_uuid(&store.metas, &store.sup), uuid);
    Ok(())
}

/// The name space of domain names, and the uuid of one name in it, as RFC 9562 prints them.
#[test]
fn a_name_has_its_uuid(rt: HostRuntime) -> Result<(), Fail> {
    let names = parse_uuid("6ba7b810-9dad-11d1-80b4-00c04fd430c8")?;
    let wanted = parse_uuid("2ed6657d-e927-568b-95e1-2665a8aea6a2")?;
    let name = Name::new(b"www.example.com");
    assert_eq!(rt; uuid_for(names, &name), wanted);
    Ok(())
}
