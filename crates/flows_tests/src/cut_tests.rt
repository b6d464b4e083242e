use super::trial::{CHECKED, ENTERED, Trial, check_counts, from_two, made, moved};
use flows::network::Counts;
use kinds::kind::Kind;
use kinds::operators::{ARITH, DETECTOR, FIELD};
use kinds::origin::Origin;
use std::alloc::Global;
use std::process::Abort;
use std::test::*;

// Two variables, two flows and a bound. f0 does nothing, f1 raises v0 and wakes f0, which raises v1: 3.
fn base(rt: &impl Abort, heap: Global) -> Result<Trial<Origin>, Fail> {
    let mut trial = Trial::new(heap, 2)?;
    trial.add_bound(ENTERED, 1)?;
    trial.check_step(rt, &[moved(0, 1), made(DETECTOR, 0)], 3)?;
    assert_eq!(rt; trial.first_broken(), None);
    Ok(trial)
}

// A step that breaks bound 0. f2 raises v2; f3 raises v0 and wakes f0 and f2; f0 raises v1, whose reader f2 waits already;
// f2 raises v2: 4.
fn add_bad_step(rt: &impl Abort, trial: &mut Trial<Origin>) -> Result<(), Fail> {
    trial.add_variable()?;
    trial.add_bound(CHECKED, 2)?;
    trial.check_step(rt, &[from_two(ARITH, 0, 1, 2), made(FIELD, 0)], 4)?;
    check_counts(rt, trial.network.counts(), (3, 4, 2))?;
    assert_eq!(rt; trial.first_broken(), Some(0));
    Ok(())
}

// Goes on from the base with other flows. First f0 to f3 in order: f1 raises v0 and wakes f0, f2 raises v2 (4 evaluations);
// then f0 raises v1 and wakes f3, which does not rise (2). Last f4 raises v0 and wakes f0 alone, f0 raises v1 and wakes f3,
// f3 raises v2 (3).
fn go_on(rt: &impl Abort, trial: &mut Trial<Origin>) -> Result<(), Fail> {
    trial.add_bound(CHECKED, 0)?;
    trial.add_flows(&[made(DETECTOR, 2), moved(1, 2)])?;
    assert_eq!(rt; trial.settle_anew()?, 6);
    trial.check_values(rt, &[Origin::value(CHECKED); 3])?;
    assert_eq!(rt; trial.first_broken(), Some(1));
    trial.check_step(rt, &[made(FIELD, 0)], 3)?;
    trial.check_values(rt, &[Origin::value(ENTERED); 3])?;
    assert_eq!(rt; trial.first_broken(), Some(0));
    check_counts(rt, trial.network.counts(), (3, 5, 2))
}

#[test]
fn after_a_cut_all_goes_on_as_if_never_added(rt: HostRuntime) -> Result<(), Fail> {
    let mut never = base(&rt, rt.alloc())?;
    never.add_variable()?;
    go_on(&rt, &mut never)?;

    let mut trial = base(&rt, rt.alloc())?;
    let before = trial.network.counts();
    add_bad_step(&rt, &mut trial)?;
    assert!(rt; trial.network.cut_back(before));
    check_counts(&rt, trial.network.counts(), (2, 2, 1))?;
    assert_eq!(rt; trial.network.add_variable(), Some(2));
    go_on(&rt, &mut trial)
}

// Each has one count too many, or lacks v1: it is the target of f0, and the bound stands on it.
#[test]
fn a_cut_to_no_earlier_counts_changes_nothing(rt: HostRuntime) -> Result<(), Fail> {
    let mut trial = base(&rt, rt.alloc())?;
    for (variables, flows, bounds) in [(3, 2, 1), (2, 3, 1), (2, 2, 2), (1, 2, 0), (1, 0, 1)] {
        let to = Counts {
            variables,
            flows,
            bounds,
        };
        assert!(rt; !trial.network.cut_back(to));
        check_counts(&rt, trial.network.counts(), (2, 2, 1))?;
    }
    assert_eq!(rt; trial.settle_anew()?, 3);
    trial.check_values(&rt, &[Origin::value(CHECKED); 2])
}
