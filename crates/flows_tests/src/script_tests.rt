// A script, step by step: a number from a form is checked and put into a cell that two names share; then the unchecked
// number is stored through the second name, and read from there.
use super::trial::{CHECKED, ENTERED, Trial, from_one, from_two, made, moved};
use flows::flow::Variable;
use kinds::kind::Kind;
use kinds::operators::{CHECK, FIELD, LITERAL};
use kinds::origin::Origin;
use std::process::Abort;
use std::test::*;

const ARGUMENT: Variable = 0;

const RESULT: Variable = 1;

const CAP: Variable = 2;

const FORTY: Variable = 3;

const LIMITED: Variable = 4;

const SLOT: Variable = 5;

const CELL: Variable = 6;

const CONTENT: Variable = 7;

const Q: Variable = 8;

const Q_CONTENT: Variable = 9;

const ZERO: Variable = 10;

const N: Variable = 11;

const BAD: Variable = 12;

const VARIABLES: Variable = 13;

// f0 to f2: the literal does nothing, the field raises its result, and the move, which waits, raises the cap.
fn read_cap(rt: &impl Abort, trial: &mut Trial<Origin>) -> Result<(), Fail> {
    let flows = [
        made(LITERAL, ARGUMENT),
        from_one(FIELD, ARGUMENT, RESULT),
        moved(RESULT, CAP),
    ];
    trial.check_step(rt, &flows, 3)?;
    trial.check_value(rt, CAP as usize, Origin::value(ENTERED))
}

// f3 to f5: the check of an entered number against a constant gives a checked one, and the move takes it on.
fn check_cap(rt: &impl Abort, trial: &mut Trial<Origin>) -> Result<(), Fail> {
    let flows = [
        made(LITERAL, FORTY),
        from_two(CHECK, CAP, FORTY, LIMITED),
        moved(LIMITED, SLOT),
    ];
    trial.check_step(rt, &flows, 3)?;
    trial.check_value(rt, SLOT as usize, Origin::value(CHECKED))
}

// f6 to f10: f7 raises the content and f9 that of q, and what they wake waits already; f10 brings the same back: 5.
fn share_cell(rt: &impl Abort, trial: &mut Trial<Origin>) -> Result<(), Fail> {
    let flows = [
        made(LITERAL, CELL),
        moved(SLOT, CONTENT),
        moved(CELL, Q),
        moved(CONTENT, Q_CONTENT),
        moved(Q_CONTENT, CONTENT),
    ];
    trial.check_step(rt, &flows, 5)?;
    trial.check_value(rt, Q as usize, Origin::bottom())?;
    trial.check_value(rt, Q_CONTENT as usize, Origin::value(CHECKED))
}

// f11 to f13: f12 raises the content of q and wakes f10, and the others do nothing (3). Then f10 raises the content and wakes
// f9, which does nothing (2).
fn store_cap(rt: &impl Abort, trial: &mut Trial<Origin>) -> Result<(), Fail> {
    let flows = [made(LITERAL, ZERO), moved(CAP, Q_CONTENT), moved(ZERO, N)];
    trial.check_step(rt, &flows, 5)?;
    trial.check_value(rt, CONTENT as usize, Origin::value(ENTERED))?;
    trial.check_value(rt, N as usize, Origin::bottom())?;
    trial.check_value(rt, Q_CONTENT as usize, Origin::value(ENTERED))
}

// f14 raises what nothing reads: 1. In the explaining run, in number order, f9 makes the content of q checked and f12 makes
// it entered; of the flows before, all rise but the literals, f8, which moves a literal, and f10, which brings back what is
// there.
#[test]
fn an_entered_number_comes_by_the_other_name(rt: HostRuntime) -> Result<(), Fail> {
    let mut trial = Trial::<Origin>::new(rt.alloc(), VARIABLES)?;
    read_cap(&rt, &mut trial)?;
    check_cap(&rt, &mut trial)?;
    share_cell(&rt, &mut trial)?;
    store_cap(&rt, &mut trial)?;
    assert_eq!(rt; trial.first_broken(), None, "no bound yet");
    trial.add_bound(ENTERED, Q_CONTENT)?;
    trial.check_step(&rt, &[moved(Q_CONTENT, BAD)], 1)?;
    trial.check_value(&rt, BAD as usize, Origin::value(ENTERED))?;
    assert_eq!(rt; trial.first_broken(), Some(0));
    let mut list = [99; 8];
    trial.check_explained(&rt, &mut list, Some(0), 7)?;
    assert_eq!(rt; list, [1, 2, 4, 5, 7, 9, 12, 99]);
    Ok(())
}
