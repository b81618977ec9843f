//! Maps of slots and their runs.

ghost use Rattle.std.specs.Prelude.{◌≡◌, IfOk, length};

use crate::fixtures::{THREE_RUNS, list_of};
use descriptors::{MapFault, SlotMap, runs_of, slots_of};
use std::alloc::Global;
use std::test::Fail;
use volume_model::{Memory, SlotRun, TryCopy};

/// The six slots of the three runs.
fn six_slots(alloc: Global) -> Result<SlotMap, Memory>
    ensures { IfOk result (λ map. length map ≡ 6) }
{
    let mut map = SlotMap::new(alloc);
    map.push_run(Some(5), 2)?;
    map.push_run(Some(7), 1)?;
    map.push_run(None, 3)?;
    map.set(5, Some(9))?;
    Ok(map)
}

#[test]
fn a_map_has_its_slots(rt: HostRuntime) -> Result<(), Fail> {
    let map = six_slots(rt.alloc())?;
    assert!(rt; map.len() == 6 && map.get(2) == Some(7));
    assert!(rt; map.get(3).is_none() && map.get(5) == Some(9));
    Ok(())
}

#[test]
fn a_map_and_its_runs(rt: HostRuntime) -> Result<(), Fail> {
    let map = six_slots(rt.alloc())?;
    let runs = runs_of(rt.alloc(), &map)?;
    assert!(rt; runs.as_slice() == THREE_RUNS.as_slice());
    Ok(())
}

#[test]
fn a_map_is_cut(rt: HostRuntime) -> Result<(), Fail> {
    let mut map = six_slots(rt.alloc())?.try_copy(rt.alloc())?;
    map.cut(4);
    assert!(rt; runs_of(rt.alloc(), &map)?.len() == 2);
    Ok(())
}

#[test]
fn runs_and_their_map(rt: HostRuntime) -> Result<(), Fail> {
    let runs = list_of(rt.alloc(), &THREE_RUNS[..2])?;
    let map = slots_of(rt.alloc(), &runs)
        .ok()
        .ok_or("a map of five slots")?;
    assert!(rt; map.as_slice() == [Some(5), Some(6), Some(7), None, None].as_slice());
    Ok(())
}

#[test]
fn runs_of_too_many_slots_have_no_map(rt: HostRuntime) -> Result<(), Fail> {
    let mut runs = list_of(rt.alloc(), &THREE_RUNS[..2])?;
    runs.push(SlotRun {
        cluster: 0,
        length: 1 << 20,
    })?;
    let is_too_large = matches!(
        slots_of(rt.alloc(), &runs),
        Err(MapFault::TooLarge { slots: 1048581 })
    );
    assert!(rt; is_too_large);
    Ok(())
}
