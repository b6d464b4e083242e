use super::trial::{ENTERED, Trial, from_one, from_two, made, moved};
use kinds::kind::Kind;
use kinds::operators::{ARITH, FIELD};
use kinds::origin::Origin;
use kinds::sources::Sources;
use std::test::*;

// In steps: the moves do nothing (3). Then f3 raises v1 and wakes f1, which raises v2 and wakes f2, which raises v0 and
// wakes f0, which does not rise (4).
#[test]
fn a_cycle_of_moves_settles(rt: HostRuntime) -> Result<(), Fail> {
    let mut trial = Trial::<Origin>::new(rt.alloc(), 3)?;
    trial.check_step(&rt, &[moved(0, 1), moved(1, 2), moved(2, 0)], 3)?;
    trial.check_values(&rt, &[Origin::bottom(); 3])?;
    trial.check_step(&rt, &[made(FIELD, 1)], 4)?;
    trial.check_values(&rt, &[Origin::value(ENTERED); 3])?;
    // At once, the same 3 and then the same 4.
    assert_eq!(rt; trial.settle_anew()?, 7);
    trial.check_values(&rt, &[Origin::value(ENTERED); 3])
}

// f0 does nothing, f1 raises v0 and wakes f0, which does not rise: 3.
#[test]
fn a_move_onto_itself_never_rises(rt: HostRuntime) -> Result<(), Fail> {
    let mut trial = Trial::<Origin>::new(rt.alloc(), 1)?;
    trial.check_step(&rt, &[moved(0, 0), made(FIELD, 0)], 3)?;
    trial.check_value(&rt, 0, Origin::value(ENTERED))
}

// The flow adds the form to its own target and so wakes itself, and has then nothing to add: 2.
#[test]
fn a_flow_that_reads_its_target_wakes_itself(rt: HostRuntime) -> Result<(), Fail> {
    let mut trial = Trial::<Sources>::new(rt.alloc(), 1)?;
    trial.check_step(&rt, &[from_one(FIELD, 0, 0)], 2)?;
    trial.check_value(&rt, 0, Sources::value(0))
}

// f0 does nothing, f1 raises v0, which is both sources of f0: that waits once, and raises v1. So 3, not 4.
#[test]
fn a_reader_by_both_sources_is_woken_once(rt: HostRuntime) -> Result<(), Fail> {
    let mut trial = Trial::<Origin>::new(rt.alloc(), 2)?;
    trial.check_step(&rt, &[from_two(ARITH, 0, 0, 1), made(FIELD, 0)], 3)?;
    trial.check_values(&rt, &[Origin::value(ENTERED); 2])
}
