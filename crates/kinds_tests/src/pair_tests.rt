use super::values::{Both, check_spelling, has_name, same};
use kinds::kind::Kind;
use kinds::operators::{ARITH, CHECK, CLOCK, DETECTOR, FIELD, HIGHEST, LITERAL, MOVE};

// Which of the names checked, entered, form, loop and clock a value has.
fn names(value: Both) -> [bool; 5] {
    [
        has_name(value, 0),
        has_name(value, 1),
        has_name(value, 2),
        has_name(value, 3),
        has_name(value, 4),
    ]
}

// A value of this rank on the left, with these flags on the right: form 1, loop 2, clock 4.
fn both(rank: u8, bits: u8) -> Both {
    let mut value = Both::bottom();
    if rank > 0 {
        value = value.join(Both::value(rank - 1));
    }
    if bits & 1 != 0 {
        value = value.join(Both::value(2));
    }
    if bits & 2 != 0 {
        value = value.join(Both::value(3));
    }
    if bits & 4 != 0 {
        value = value.join(Both::value(4));
    }
    value
}

#[test]
fn names_are_those_of_both_sides(rt: HostRuntime) {
    assert_eq!(rt; Both::names(), 5);
    check_spelling::<Both>(&rt, 0, b"checked");
    check_spelling::<Both>(&rt, 1, b"entered");
    check_spelling::<Both>(&rt, 2, b"form");
    check_spelling::<Both>(&rt, 3, b"loop");
    check_spelling::<Both>(&rt, 4, b"clock");
}

#[test]
fn a_name_leaves_its_other_side_bottom(rt: HostRuntime) {
    assert_eq!(rt; names(Both::bottom()), [false, false, false, false, false]);
    assert_eq!(rt; names(Both::value(0)), [true, false, false, false, false]);
    assert_eq!(rt; names(Both::value(1)), [true, true, false, false, false]);
    assert_eq!(rt; names(Both::value(2)), [false, false, true, false, false]);
    assert_eq!(rt; names(Both::value(3)), [false, false, false, true, false]);
    assert_eq!(rt; names(Both::value(4)), [false, false, false, false, true]);
}

#[test]
fn field_is_entered_from_the_form(rt: HostRuntime) {
    let field = Both::operate(FIELD, Both::bottom(), Both::bottom());
    assert_eq!(rt; names(field), [true, true, true, false, false]);
    assert_eq!(rt; field.rank(), 3);
    assert_eq!(rt; Both::height(), 5);
}

#[test]
fn operators_act_side_by_side(rt: HostRuntime) {
    let a = both(2, 1);
    let b = both(1, 4);
    assert!(rt; same(Both::operate(MOVE, a, b), a), "move");
    assert!(rt; same(Both::operate(LITERAL, a, b), both(0, 0)), "literal");
    assert!(rt; same(Both::operate(ARITH, a, b), both(2, 5)), "arith");
    assert!(rt; same(Both::operate(FIELD, b, a), both(2, 5)), "field");
    assert!(rt; same(Both::operate(DETECTOR, a, b), both(1, 3)), "detector");
    assert!(rt; same(Both::operate(CLOCK, a, b), both(1, 5)), "clock");
    assert!(rt; same(Both::operate(CHECK, a, b), both(1, 5)), "check");
    assert!(rt;
        same(Both::operate(CHECK, b, a), both(2, 5)),
        "check by an entered one"
    );
    assert!(rt;
        same(Both::operate(HIGHEST + 1, a, b), both(0, 0)),
        "no operator"
    );
}
