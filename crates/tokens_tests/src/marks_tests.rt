use super::shown::{Case, check_cases};
use std::alloc::Global;
use std::process::Abort;
use std::test::Fail;

const BINDERS: [Case; 10] = [
    (b"(*$*)", "0:(*$*)"),
    (b"(*$/*)", "0:(*$/*)"),
    (b"(*$a,b/c*)", "0:(*$a,b/c*)"),
    (b"(*$//a*) (*$a//*)", "0:(*$//a*) 9:(*$a//*)"),
    (b"(*$Ab,CD*)", "0:(*$Ab,CD*)"),
    (b"(*$val,int*)", "0:(*$val,int*)"),
    (b"(*$abcdefghijklmnop*)", "0:(*$abcdefghijklmnop*)"),
    (
        b"(*$a/bcdefghijklmnop,abcdefghijklmnop*)",
        "0:(*$a/bcdefghijklmnop,abcdefghijklmnop*)",
    ),
    (b"((*$*))", "0:( 1:(*$*) 6:)"),
    (b"(*$a*)*)", "0:(*$a*) 6:* 7:)"),
];

const BOUNDS: [Case; 3] = [
    (b"(*!a*)", "0:(*!a*)"),
    (b"x (*!Entered*)", "0:x 2:(*!Entered*)"),
    (b"(*!abcdefghijklmnop*)", "0:(*!abcdefghijklmnop*)"),
];

// These, NO_BOUNDS and NO_MARKS are refused at their first byte.
const NO_BINDERS: [&[u8]; 22] = [
    b"(*$a,*)",
    b"(*$,a*)",
    b"(*$,*)",
    b"(*$a,,b*)",
    b"(*$a,/b*)",
    b"(*$a/,*)",
    b"(*$ a*)",
    b"(*$a *)",
    b"(*$a,\nb*)",
    b"(*$ *)",
    b"(*$",
    b"(*$a",
    b"(*$a*",
    b"(*$a)",
    b"(*$a* )",
    b"(*$a**)",
    b"(*$a/b,c",
    b"(*$abcdefghijklmnopq*)",
    b"(*$a/b,abcdefghijklmnopq*)",
    b"(*$a1*)",
    b"(*$a_b*)",
    b"(*$a'*)",
];

const NO_BOUNDS: [&[u8]; 11] = [
    b"(*!*)",
    b"(*!a,b*)",
    b"(*!a/b*)",
    b"(*!/*)",
    b"(*! a*)",
    b"(*!a *)",
    b"(*!",
    b"(*!a",
    b"(*!a*",
    b"(*!a1*)",
    b"(*!abcdefghijklmnopq*)",
];

const NO_MARKS: [&[u8]; 7] = [
    b"(*3)", b"(*", b"(*)", b"(**)", b"(*a*)", b"(*:=*)", b"(* $a*)",
];

const PLACES: [Case; 4] = [
    (b"x (*$a,*)", "refused 2 2"),
    (b"x(*", "refused 2 1"),
    (b"((*!*))", "refused 2 1"),
    (b"(*$a*)(*$b", "refused 2 6"),
];

fn check_refused(rt: &impl Abort, heap: Global, texts: &[&[u8]]) -> Result<(), Fail> {
    for text in texts {
        check_cases(rt, heap, &[(*text, "refused 2 0")])?;
    }
    Ok(())
}

#[test]
fn marks_are_read(rt: HostRuntime) -> Result<(), Fail> {
    check_cases(&rt, rt.alloc(), &BINDERS)?;
    check_cases(&rt, rt.alloc(), &BOUNDS)
}

#[test]
fn no_other_mark_is_read(rt: HostRuntime) -> Result<(), Fail> {
    check_refused(&rt, rt.alloc(), &NO_BINDERS)?;
    check_refused(&rt, rt.alloc(), &NO_BOUNDS)?;
    check_refused(&rt, rt.alloc(), &NO_MARKS)?;
    check_cases(&rt, rt.alloc(), &PLACES)
}
