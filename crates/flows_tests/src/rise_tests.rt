use super::trial::{Trial, made, moved, named};
use flows::flow::Flow;
use kinds::kind::Kind;
use kinds::operators::{CLOCK, DETECTOR, FIELD};
use kinds::sources::Sources;
use std::test::*;

// F * (1 + 2h) for 7 flows over a kind of height 3.
const MOST: usize = 7 * (1 + 2 * 3);

// v0 has the form at once, the loop by way of v2, and the clock by way of v4 and v3; each move stands before what it waits
// for, so they come one round after another. f0 reads v0.
fn late_sources() -> [Flow; 7] {
    [
        moved(0, 1),
        moved(2, 0),
        moved(3, 0),
        moved(4, 3),
        made(FIELD, 0),
        made(DETECTOR, 2),
        made(CLOCK, 4),
    ]
}

fn all() -> Sources {
    Sources::value(0)
        .join(Sources::value(1))
        .join(Sources::value(2))
}

// First f0 to f6 in order: f4 raises v0 and wakes f0, f5 raises v2 and wakes f1, f6 raises v4 and wakes f3 (7 evaluations).
// Then f0 rises, f1 raises v0 and wakes f0, f3 raises v3 and wakes f2 (3); f0 rises, f2 raises v0 and wakes f0 (2); f0
// rises (1).
#[test]
fn a_variable_rises_as_often_as_the_height(rt: HostRuntime) -> Result<(), Fail> {
    let mut trial = Trial::<Sources>::new(rt.alloc(), 5)?;
    let evaluations = trial.step(&late_sources())?;
    assert_eq!(rt; evaluations, 13);
    assert!(rt; evaluations <= MOST);
    trial.check_values(
        &rt,
        &[
            all(),
            all(),
            Sources::value(1),
            Sources::value(2),
            Sources::value(2),
        ],
    )?;
    // v0 rises by f4, f1 and f2, and its reader, f0, after each of them.
    let mut list = [99; 10];
    trial.check_explained(&rt, &mut list, None, 9)?;
    assert_eq!(rt; list, [4, 5, 6, 0, 1, 3, 0, 2, 0, 99]);
    Ok(())
}

// The reader alone does nothing (1). Each name raises v0 and wakes the reader, which rises (2 each).
#[test]
fn each_new_name_wakes_the_reader(rt: HostRuntime) -> Result<(), Fail> {
    let mut trial = Trial::<Sources>::new(rt.alloc(), 2)?;
    trial.check_step(&rt, &[moved(0, 1)], 1)?;
    for name in 0..3 {
        trial.check_step(&rt, &[named(name, 0)], 2)?;
    }
    // A name that is there already raises nothing.
    trial.check_step(&rt, &[named(1, 0)], 1)?;
    trial.check_values(&rt, &[all(), all()])
}
