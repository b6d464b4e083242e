use super::values::{has_name, same, sources};
use kinds::kind::Kind;
use kinds::operators::OperatorNumber;
use kinds::sources::Sources;
use std::process::Abort;

fn bits(set: Sources) -> u8 {
    let form = u8::from(has_name(set, 0));
    let looped = u8::from(has_name(set, 1));
    let clock = u8::from(has_name(set, 2));
    form | (looped << 1) | (clock << 2)
}

// What an operator gives, on sets as bits.
fn expected(number: OperatorNumber, a: u8, b: u8) -> u8 {
    match number {
        0 => a,
        2 | 6 => a | b,
        3 => a | 1,
        4 => a | 2,
        5 => a | 4,
        _ => 0,
    }
}

fn gives_expected(rt: &impl Abort, number: OperatorNumber) {
    for a in 0..8 {
        for b in 0..8 {
            let result = Sources::operate(number, sources(a), sources(b));
            let flags = expected(number, a, b);
            assert_eq!(rt; bits(result), flags, "operator {number} on {a} and {b}");
            assert!(rt; same(result, sources(flags)));
        }
    }
}

#[test]
fn operators_act_on_the_flags(rt: HostRuntime) {
    for number in 0..8 {
        gives_expected(&rt, number);
    }
    gives_expected(&rt, 255);
}

#[test]
fn values_are_sets_of_flags(rt: HostRuntime) {
    assert_eq!(rt; Sources::height(), 3);
    for a in 0..8 {
        assert_eq!(rt; bits(sources(a)), a);
        assert_eq!(rt; u32::from(sources(a).rank()), a.count_ones());
        for b in 0..8 {
            assert_eq!(rt; sources(a).at_or_below(sources(b)), a & b == a);
            assert_eq!(rt; bits(sources(a).join(sources(b))), a | b);
        }
    }
}
