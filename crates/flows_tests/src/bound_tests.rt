use super::trial::{CHECKED, ENTERED, Trial, made, moved};
use kinds::kind::Kind;
use kinds::operators::{DETECTOR, FIELD};
use kinds::origin::Origin;
use std::test::*;

// The move does nothing (1). A checked number raises v0 and wakes the move, which raises v1 (2): entered is not at or below
// checked, so the bound holds. An entered number does the same (2), and entered reaches v1 by the old move.
#[test]
fn an_old_flow_breaks_a_bound_after_a_new_one(rt: HostRuntime) -> Result<(), Fail> {
    let mut trial = Trial::<Origin>::new(rt.alloc(), 2)?;
    trial.add_bound(ENTERED, 1)?;
    trial.check_step(&rt, &[moved(0, 1)], 1)?;
    assert_eq!(rt; trial.first_broken(), None);
    trial.check_step(&rt, &[made(DETECTOR, 0)], 2)?;
    assert_eq!(rt; trial.first_broken(), None);
    trial.check_step(&rt, &[made(FIELD, 0)], 2)?;
    assert_eq!(rt; trial.first_broken(), Some(0));
    Ok(())
}

// Bound 0 stands on v2, where nothing flows. The field breaks bounds 1 and 2 in one step, since both names are at or below
// entered.
#[test]
fn of_two_broken_bounds_the_lowest_is_found(rt: HostRuntime) -> Result<(), Fail> {
    let mut trial = Trial::<Origin>::new(rt.alloc(), 3)?;
    trial.add_bound(CHECKED, 2)?;
    trial.add_bound(ENTERED, 1)?;
    trial.add_bound(CHECKED, 1)?;
    trial.check_step(&rt, &[moved(0, 1)], 1)?;
    assert_eq!(rt; trial.first_broken(), None);
    trial.check_step(&rt, &[made(FIELD, 0)], 2)?;
    assert_eq!(rt; trial.first_broken(), Some(1));
    Ok(())
}
