use super::trial::{ENTERED, Trial, made, moved};
use kinds::kind::Kind;
use kinds::operators::FIELD;
use kinds::origin::Origin;
use std::test::*;

// Past the last flow none is queued. From f1 on, the move alone does nothing (1). From f0 on, f0 raises v0, and the move,
// which waits already, raises v1 (2).
#[test]
fn only_flows_from_the_start_on_are_queued(rt: HostRuntime) -> Result<(), Fail> {
    let mut trial = Trial::<Origin>::new(rt.alloc(), 2)?;
    trial.add_flows(&[made(FIELD, 0), moved(0, 1)])?;
    for from in [2, 3, 2048, 65535] {
        assert_eq!(rt; trial.settle(from)?, 0);
        trial.check_values(&rt, &[Origin::bottom(); 2])?;
    }
    assert_eq!(rt; trial.settle(1)?, 1);
    trial.check_values(&rt, &[Origin::bottom(); 2])?;
    assert_eq!(rt; trial.settle(0)?, 2);
    trial.check_values(&rt, &[Origin::value(ENTERED); 2])?;
    assert_eq!(rt; trial.settle(2)?, 0);
    trial.check_values(&rt, &[Origin::value(ENTERED); 2])
}
