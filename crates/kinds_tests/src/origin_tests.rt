use super::values::{origin, same};
use kinds::kind::Kind;
use kinds::operators::OperatorNumber;
use kinds::origin::Origin;
use std::process::Abort;

// An operator's results by rank: a row for each first operand, an entry for each second.
type Ranks = [[u8; 3]; 3];

const BOTTOM: Ranks = [[0, 0, 0], [0, 0, 0], [0, 0, 0]];

const RESULTS: [(OperatorNumber, Ranks); 9] = [
    (0, [[0, 0, 0], [1, 1, 1], [2, 2, 2]]),
    (1, BOTTOM),
    (2, [[0, 1, 2], [1, 1, 2], [2, 2, 2]]),
    (3, [[2, 2, 2], [2, 2, 2], [2, 2, 2]]),
    (4, [[1, 1, 1], [1, 1, 1], [1, 1, 1]]),
    (5, [[1, 1, 1], [1, 1, 1], [1, 1, 1]]),
    (6, [[0, 0, 2], [1, 1, 2], [1, 1, 2]]),
    (7, BOTTOM),
    (255, BOTTOM),
];

fn gives(rt: &impl Abort, number: OperatorNumber, results: Ranks) {
    for (a, row) in results.iter().enumerate() {
        for (b, rank) in row.iter().enumerate() {
            let result = Origin::operate(number, origin(a as u8), origin(b as u8));
            assert!(rt;
                same(result, origin(*rank)),
                "operator {number} on {a} and {b}"
            );
        }
    }
}

#[test]
fn operators_follow_the_table(rt: HostRuntime) {
    for (number, results) in RESULTS {
        gives(&rt, number, results);
    }
}

#[test]
fn values_are_a_chain(rt: HostRuntime) {
    assert_eq!(rt; Origin::height(), 2);
    for a in 0..3 {
        assert_eq!(rt; origin(a).rank(), a);
        for b in 0..3 {
            assert_eq!(rt; origin(a).at_or_below(origin(b)), a <= b);
            assert_eq!(rt; origin(a).join(origin(b)).rank(), a.max(b));
        }
    }
}
