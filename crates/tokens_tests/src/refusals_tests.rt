use refusals::numbers::LONGEST;
use refusals::refusal::{Limit, Refusal};
use std::alloc::Global;
use std::process::Abort;
use std::test::Fail;

// A refusal, its number, and the one value that is returned with it.
const ONE_VALUE: [(Refusal, u8, usize); 15] = [
    (Refusal::TooLong, 1, 4096),
    (Refusal::NoToken(0), 2, 0),
    (Refusal::NoToken(4095), 2, 4095),
    (Refusal::Misplaced(12), 3, 12),
    (Refusal::TooDeep(13), 4, 13),
    (Refusal::NotInForce(14), 5, 14),
    (Refusal::Unfit(15), 6, 15),
    (Refusal::Passed(Limit::Variables), 7, 1),
    (Refusal::Passed(Limit::Flows), 7, 2),
    (Refusal::Passed(Limit::Bounds), 7, 3),
    (Refusal::Passed(Limit::Binders), 7, 4),
    (Refusal::Passed(Limit::Text), 7, 5),
    (Refusal::NoLevel(16), 9, 16),
    (Refusal::TooShort(17), 10, 17),
    (Refusal::NoneBroken, 11, 0),
];

#[test]
fn refusals_have_numbers_and_values(rt: HostRuntime) {
    assert_eq!(rt; LONGEST, 4096);
    for (refusal, number, value) in ONE_VALUE {
        assert_eq!(rt; refusal.number(), Some(number));
        assert_eq!(rt; refusal.values(), (Some(value), None), "number {number}");
    }
}

#[test]
fn a_broken_bound_is_told_with_the_evaluations(rt: HostRuntime) {
    assert_eq!(rt; Refusal::Broken(4, 9).number(), Some(8));
    assert_eq!(rt; Refusal::Broken(4, 9).values(), (Some(4), Some(9)));
}

#[test]
fn want_of_memory_has_neither_number_nor_value(rt: HostRuntime) {
    assert_eq!(rt; Refusal::Memory.number(), None);
    assert_eq!(rt; Refusal::Memory.values(), (None, None));
}

fn check_printed(rt: &impl Abort, heap: Global, refusal: Refusal, line: &str) -> Result<(), Fail> {
    assert_eq!(rt; refusal.to_string(heap)?.as_str(), line);
    Ok(())
}

#[test]
fn a_refusal_is_printed_with_its_number_and_values(rt: HostRuntime) -> Result<(), Fail> {
    check_printed(&rt, rt.alloc(), Refusal::TooLong, "refused 1 4096")?;
    check_printed(&rt, rt.alloc(), Refusal::NoToken(8), "refused 2 8")?;
    check_printed(&rt, rt.alloc(), Refusal::Passed(Limit::Text), "refused 7 5")?;
    check_printed(&rt, rt.alloc(), Refusal::Broken(0, 12), "refused 8 0 12")?;
    check_printed(&rt, rt.alloc(), Refusal::NoneBroken, "refused 11 0")?;
    check_printed(&rt, rt.alloc(), Refusal::Memory, "refused memory")
}
