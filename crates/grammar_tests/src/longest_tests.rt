// The longest lists that a text of 4,096 bytes can hold are read, and let go, on the stack that there is.
use super::answers::{append, refused};
use std::alloc::Global;
use std::process::Abort;
use std::test::Fail;

// A front, a piece, how often it is repeated, and a back.
type List<'a> = (&'a [u8], &'a [u8], usize, &'a [u8]);

// One piece more would make each too long.
const LISTS: [List; 9] = [
    (b"val x=1", b"+1", 2044, b""),
    (b"val x=1", b"-a", 2044, b""),
    (b"val x=1", b"*1", 2044, b""),
    (b"val x=a+1", b"*1+1", 1021, b"-b"),
    (b"val x=f(1", b",1", 2043, b")"),
    (b"val x=f(g(1)", b",g(1)", 816, b")+1"),
    (b"val x=let ", b"val a=1", 582, b"in 1end"),
    (b"val x=1", b"(*!a*)", 681, b""),
    (b"val x= !(1)", b"(*!a*)", 680, b"+(2)"),
];

fn check_list(rt: &impl Abort, heap: Global, list: &List) -> Result<(), Fail> {
    let (front, piece, times, back) = *list;
    let mut text = front.to_vec(heap)?;
    append(&mut text, piece, times)?;
    text.extend_from_slice(back)?;
    assert_eq!(rt; refused(heap, &text)?, None, "{}", piece.escape_ascii());
    text.extend_from_slice(piece)?;
    assert_eq!(rt;
        refused(heap, &text)?,
        Some((1, 4096)),
        "{}",
        piece.escape_ascii()
    );
    Ok(())
}

fn check_lists(rt: &impl Abort, heap: Global, lists: &[List]) -> Result<(), Fail> {
    for list in lists {
        check_list(rt, heap, list)?;
    }
    Ok(())
}

#[test]
fn the_longest_lists_are_read(rt: HostRuntime) -> Result<(), Fail> {
    check_lists(&rt, rt.alloc(), &LISTS)
}
