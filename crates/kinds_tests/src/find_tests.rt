use super::values::{Both, check_spelling, same};
use kinds::find::find_name;
use kinds::kind::Kind;
use kinds::origin::Origin;
use kinds::pair::Pair;
use kinds::sources::Sources;
use std::process::Abort;

fn finds_no_other_text<K: Kind>(rt: &impl Abort) {
    assert_eq!(rt; find_name::<K>(b"sum"), None, "an unknown text");
    assert_eq!(rt; find_name::<K>(b""), None, "the empty text");
    assert_eq!(rt; find_name::<K>(b"check"), None, "a prefix");
    assert_eq!(rt; find_name::<K>(b"clocks"), None, "a longer text");
    assert_eq!(rt; find_name::<K>(b"Checked"), None, "a capital");
}

// Numbers past the last name have the empty spelling and bottom.
fn has_no_more_names<K: Kind>(rt: &impl Abort) {
    for number in [K::names(), 255] {
        check_spelling::<K>(rt, number, b"");
        assert!(rt; same(K::value(number), K::bottom()));
    }
}

#[test]
fn origin_names_are_found(rt: HostRuntime) {
    assert_eq!(rt; find_name::<Origin>(b"checked"), Some(0));
    assert_eq!(rt; find_name::<Origin>(b"entered"), Some(1));
    finds_no_other_text::<Origin>(&rt);
    has_no_more_names::<Origin>(&rt);
}

#[test]
fn source_names_are_found(rt: HostRuntime) {
    assert_eq!(rt; find_name::<Sources>(b"form"), Some(0));
    assert_eq!(rt; find_name::<Sources>(b"loop"), Some(1));
    assert_eq!(rt; find_name::<Sources>(b"clock"), Some(2));
    finds_no_other_text::<Sources>(&rt);
    has_no_more_names::<Sources>(&rt);
}

#[test]
fn names_of_both_sides_are_found(rt: HostRuntime) {
    assert_eq!(rt; find_name::<Both>(b"checked"), Some(0));
    assert_eq!(rt; find_name::<Both>(b"entered"), Some(1));
    assert_eq!(rt; find_name::<Both>(b"form"), Some(2));
    assert_eq!(rt; find_name::<Both>(b"loop"), Some(3));
    assert_eq!(rt; find_name::<Both>(b"clock"), Some(4));
    finds_no_other_text::<Both>(&rt);
    has_no_more_names::<Both>(&rt);
}

#[test]
fn of_equal_spellings_the_first_is_found(rt: HostRuntime) {
    check_spelling::<Pair<Origin, Origin>>(&rt, 2, b"checked");
    check_spelling::<Pair<Origin, Origin>>(&rt, 3, b"entered");
    assert_eq!(rt; find_name::<Pair<Origin, Origin>>(b"checked"), Some(0));
    assert_eq!(rt; find_name::<Pair<Origin, Origin>>(b"entered"), Some(1));
    finds_no_other_text::<Pair<Origin, Origin>>(&rt);
    has_no_more_names::<Pair<Origin, Origin>>(&rt);
}
