use super::trial::{CHECKED, ENTERED, Trial, check_counts, from_two, made, moved};
use flows::flow::Bound;
use flows::network::Network;
use kinds::kind::Kind;
use kinds::operators::{ARITH, FIELD};
use kinds::origin::Origin;
use std::test::*;

#[test]
fn only_512_variables_go(rt: HostRuntime) -> Result<(), Fail> {
    let mut network = Network::new(rt.alloc())?;
    for number in 0..512 {
        assert_eq!(rt; network.add_variable(), Some(number));
    }
    assert_eq!(rt; network.add_variable(), None);
    check_counts(&rt, network.counts(), (512, 0, 0))
}

#[test]
fn only_256_bounds_go(rt: HostRuntime) -> Result<(), Fail> {
    let mut network = Network::new(rt.alloc())?;
    assert_eq!(rt; network.add_variable(), Some(0));
    let bound = Bound {
        name: CHECKED,
        variable: 0,
    };
    for number in 0..256 {
        assert_eq!(rt; network.add_bound(bound), Some(number));
    }
    assert_eq!(rt; network.add_bound(bound), None);
    check_counts(&rt, network.counts(), (1, 0, 256))
}

// 2047 moves do nothing; the last flow raises v0 and wakes all the moves, which again do nothing: 2048 + 2047.
#[test]
fn only_2048_flows_go_and_they_settle(rt: HostRuntime) -> Result<(), Fail> {
    let mut trial = Trial::<Origin>::new(rt.alloc(), 1)?;
    for number in 0..2047 {
        assert_eq!(rt; trial.network.add_flow(moved(0, 0)), Some(number));
    }
    assert_eq!(rt; trial.network.add_flow(made(FIELD, 0)), Some(2047));
    assert_eq!(rt; trial.network.add_flow(moved(0, 0)), None);
    check_counts(&rt, trial.network.counts(), (1, 2048, 0))?;
    assert_eq!(rt; trial.settle(0)?, 4095);
    trial.check_value(&rt, 0, Origin::value(ENTERED))
}

#[test]
fn a_variable_that_is_not_there_is_refused(rt: HostRuntime) -> Result<(), Fail> {
    let mut trial = Trial::<Origin>::new(rt.alloc(), 2)?;
    for absent in [2, 512, 65535] {
        let network = &mut trial.network;
        assert_eq!(rt; network.add_flow(made(FIELD, absent)), None, "target");
        assert_eq!(rt;
            network.add_flow(from_two(ARITH, absent, 0, 1)),
            None,
            "first source"
        );
        assert_eq!(rt;
            network.add_flow(from_two(ARITH, 0, absent, 1)),
            None,
            "second source"
        );
        let bound = Bound {
            name: CHECKED,
            variable: absent,
        };
        assert_eq!(rt; network.add_bound(bound), None);
        check_counts(&rt, network.counts(), (2, 0, 0))?;
    }
    assert_eq!(rt; trial.settle(0)?, 0);
    Ok(())
}
