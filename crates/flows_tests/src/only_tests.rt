use super::trial::{Trial, from_two, made, moved};
use kinds::kind::Kind;
use kinds::operators::{ARITH, FIELD};
use kinds_tests::only::Only;
use std::test::*;

// The one value is at or below itself, so every flow is met from the first: 3 evaluations, no rise.
#[test]
fn with_one_value_nothing_rises(rt: HostRuntime) -> Result<(), Fail> {
    let mut trial = Trial::<Only>::new(rt.alloc(), 2)?;
    let flows = [moved(0, 1), made(FIELD, 0), from_two(ARITH, 0, 1, 0)];
    trial.check_step(&rt, &flows, 3)?;
    let mut list = [99; 1];
    trial.check_explained(&rt, &mut list, None, 0)?;
    assert_eq!(rt; list, [99]);
    Ok(())
}

// Each name has that value too, so a bound is broken before any rise.
#[test]
fn with_one_value_every_bound_is_broken(rt: HostRuntime) -> Result<(), Fail> {
    let mut trial = Trial::<Only>::new(rt.alloc(), 1)?;
    trial.add_bound(0, 0)?;
    assert_eq!(rt; trial.first_broken(), Some(0));
    trial.check_explained(&rt, &mut [], Some(0), 0)
}
