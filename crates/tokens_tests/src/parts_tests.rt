use std::process::Abort;
use std::test::Fail;
use tokens::marks::{first_part, group_count, groups, names};

fn check_parts(rt: &impl Abort, parts: &[&[u8]], expected: &[&[u8]]) {
    assert_eq!(rt; parts, expected);
}

fn check_cut(rt: &impl Abort, text: &[u8], sep: u8, part: &[u8], rest: Option<&[u8]>) {
    let cut = first_part(text, sep);
    assert_eq!(rt; cut.part, part);
    assert_eq!(rt; cut.rest, rest);
}

#[test]
fn groups_stand_between_slashes(rt: HostRuntime) -> Result<(), Fail> {
    check_parts(&rt, &groups(rt.alloc(), b"a,b//c")?, &[b"a,b", b"", b"c"]);
    check_parts(&rt, &groups(rt.alloc(), b"")?, &[b""]);
    check_parts(&rt, &groups(rt.alloc(), b"/")?, &[b"", b""]);
    check_parts(&rt, &groups(rt.alloc(), b"form")?, &[b"form"]);
    Ok(())
}

#[test]
fn names_stand_between_commas(rt: HostRuntime) -> Result<(), Fail> {
    check_parts(&rt, &names(rt.alloc(), b"a,b")?, &[b"a", b"b"]);
    check_parts(&rt, &names(rt.alloc(), b"form")?, &[b"form"]);
    check_parts(&rt, &names(rt.alloc(), b"")?, &[]);
    Ok(())
}

#[test]
fn a_mark_has_a_group_more_than_slashes(rt: HostRuntime) {
    assert_eq!(rt; group_count(b"a,b//c"), 3);
    assert_eq!(rt; group_count(b""), 1);
    assert_eq!(rt; group_count(b"/"), 2);
    assert_eq!(rt; group_count(b"form"), 1);
}

#[test]
fn the_first_part_ends_before_the_separator(rt: HostRuntime) {
    check_cut(&rt, b"a,b//c", b'/', b"a,b", Some(b"/c"));
    check_cut(&rt, b"/c", b'/', b"", Some(b"c"));
    check_cut(&rt, b"c", b'/', b"c", None);
    check_cut(&rt, b"a,b", b',', b"a", Some(b"b"));
    check_cut(&rt, b"a,", b',', b"a", Some(b""));
    check_cut(&rt, b"", b'/', b"", None);
}
