use super::trial::{ENTERED, Trial, made, moved};
use kinds::kind::Kind;
use kinds::operators::{DETECTOR, FIELD};
use kinds::origin::Origin;
use std::alloc::Global;
use std::process::Abort;
use std::test::*;

// f0 makes v0 checked, f1 makes v1 checked, f2 makes v0 entered and wakes f1, f3 makes v2 checked, f1 makes v1 entered and
// wakes f3, which makes v2 entered: 6 evaluations, and each is a rise.
fn two_waves(rt: &impl Abort, heap: Global) -> Result<Trial<Origin>, Fail> {
    let mut trial = Trial::new(heap, 3)?;
    let flows = [made(DETECTOR, 0), moved(0, 1), made(FIELD, 0), moved(1, 2)];
    trial.check_step(rt, &flows, 6)?;
    trial.check_values(rt, &[Origin::value(ENTERED); 3])?;
    Ok(trial)
}

// Bounds 1 and 2 stand on v1, which is entered with the fifth rise; v2, with bound 0, would be entered only with the sixth.
fn bounded(rt: &impl Abort, heap: Global) -> Result<Trial<Origin>, Fail> {
    let mut trial = two_waves(&rt, heap)?;
    trial.add_bound(ENTERED, 2)?;
    trial.add_bound(ENTERED, 1)?;
    trial.add_bound(ENTERED, 1)?;
    assert_eq!(rt; trial.first_broken(), Some(0));
    Ok(trial)
}

#[test]
fn an_empty_list_tells_the_count(rt: HostRuntime) -> Result<(), Fail> {
    let mut trial = bounded(&rt, rt.alloc())?;
    trial.check_explained(&rt, &mut [], Some(1), 5)?;
    // f3, which waited at the end, waits no more.
    assert_eq!(rt; trial.settle(4)?, 0);
    Ok(())
}

#[test]
fn a_short_list_has_the_front(rt: HostRuntime) -> Result<(), Fail> {
    let mut trial = bounded(&rt, rt.alloc())?;
    let mut list = [99; 6];
    trial.check_explained(&rt, &mut list[0..4], Some(1), 5)?;
    assert_eq!(rt; list, [0, 1, 2, 3, 99, 99]);
    Ok(())
}

#[test]
fn a_flow_that_rises_twice_is_listed_twice(rt: HostRuntime) -> Result<(), Fail> {
    let mut trial = bounded(&rt, rt.alloc())?;
    let mut list = [99; 7];
    trial.check_explained(&rt, &mut list, Some(1), 5)?;
    assert_eq!(rt; list, [0, 1, 2, 3, 1, 99, 99]);
    Ok(())
}

#[test]
fn with_no_bound_broken_all_rises_are_listed(rt: HostRuntime) -> Result<(), Fail> {
    let mut trial = two_waves(&rt, rt.alloc())?;
    let mut list = [99; 7];
    trial.check_explained(&rt, &mut list, None, 6)?;
    assert_eq!(rt; list, [0, 1, 2, 3, 1, 3, 99]);
    trial.check_values(&rt, &[Origin::value(ENTERED); 3])
}

// Origin has the names 0 and 1. Name 2 has bottom, which is at or below every value, so no rise is needed.
#[test]
fn a_bound_on_no_name_is_broken_at_once(rt: HostRuntime) -> Result<(), Fail> {
    let mut trial = two_waves(&rt, rt.alloc())?;
    trial.add_bound(ENTERED, 1)?;
    trial.add_bound(2, 1)?;
    let mut list = [99; 2];
    trial.check_explained(&rt, &mut list, Some(1), 0)?;
    assert_eq!(rt; list, [99, 99]);
    Ok(())
}
