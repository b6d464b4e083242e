// At most 32 levels of nesting are open: the token that opens one more is refused with number 4.
use super::answers::{Case, append, check_refused, refused};
use std::alloc::Global;
use std::process::Abort;
use std::test::Fail;

// What opens a level, at which of its bytes, what closes it, and in how many copies 32 levels are open.
type Form<'a> = (&'a [u8], usize, &'a [u8], usize);

const FORMS: [Form; 21] = [
    (b"(", 0, b")", 32),
    (b"(", 0, b")(*!a*)", 32),
    (b"(1 := 2; ", 0, b")", 32),
    (b"(1 := ", 0, b"; 2)", 32),
    (b"(", 0, b" := 1; 2)", 32),
    (b"let val u = 1 in ", 0, b" end", 32),
    (b"let val u = ", 0, b" in 1 end", 32),
    (b"let val t = 1 val u = ", 0, b" val v = 2 in 3 end", 32),
    (b"if 1 < 2 then 3 else ", 0, b"", 32),
    (b"if 1 < 2 then ", 0, b" else 3", 32),
    (b"f(", 1, b")", 32),
    (b"f (1, ", 2, b", 2)", 32),
    (b"!(", 1, b")", 32),
    (b"ref (", 4, b")", 32),
    (b"! let val u = 1 in ", 2, b" end", 32),
    (b"1 - 2 * (", 8, b") mod 3 + 4", 32),
    // a level ends with its part
    (b"(1) + (", 0, b")", 32),
    (b"f(1) + (", 1, b")", 32),
    (b"let val u = 1 in u end + (", 0, b")", 32),
    // several levels in each copy
    (
        b"(if 1 < 2 then let val u = f(",
        0,
        b") in 1 end else 2)",
        8,
    ),
    (b"if (p := 1; 2) < ref (3) then !(4) else f(", 0, b")", 16),
];

// What may not follow 32 times `(`, the first at the place 8.
const FULL: [Case; 9] = [
    (b"(", 4, 40),
    (b"if", 4, 40),
    (b"let", 4, 40),
    (b"f (", 4, 42),
    (b"! (", 4, 42),
    (b"1 (", 3, 42),
    (b"then", 3, 40),
    (b"1", 3, 41),
    (b"( $", 2, 42),
];

fn check_form(rt: &impl Abort, heap: Global, front: &[u8], form: &Form) -> Result<(), Fail> {
    let (open, opening, close, copies) = *form;
    let mut text = front.to_vec(heap)?;
    append(&mut text, open, copies)?;
    let next = text.len();
    text.push(b'1')?;
    append(&mut text, close, copies)?;
    assert_eq!(rt;
        refused(heap, &text)?,
        None,
        "full of {}",
        open.escape_ascii()
    );
    text.truncate(next);
    text.extend_from_slice(open)?;
    let place = next.saturating_add(opening);
    assert_eq!(rt;
        refused(heap, &text)?,
        Some((4, place)),
        "one more {}",
        open.escape_ascii()
    );
    Ok(())
}

fn check_forms(rt: &impl Abort, heap: Global, front: &[u8], forms: &[Form]) -> Result<(), Fail> {
    for form in forms {
        check_form(rt, heap, front, form)?;
    }
    Ok(())
}

#[test]
fn thirty_two_levels_are_read_and_no_more(rt: HostRuntime) -> Result<(), Fail> {
    check_forms(&rt, rt.alloc(), b"val x = ", &FORMS)?;
    // the parameter list of a function opens no level
    check_forms(&rt, rt.alloc(), b"fun f(a:int):int ref = ", &FORMS)
}

#[test]
fn only_what_opens_a_level_is_too_deep(rt: HostRuntime) -> Result<(), Fail> {
    for (last, number, place) in FULL {
        let mut text = b"val x = ".to_vec(rt.alloc())?;
        append(&mut text, b"(", 32)?;
        text.extend_from_slice(last)?;
        check_refused(&rt, rt.alloc(), &[(&text, number, place)])?;
    }
    Ok(())
}
