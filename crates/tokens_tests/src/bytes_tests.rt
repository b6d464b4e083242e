use super::shown::{Case, check_cases, shown};
use std::test::Fail;

const BLANKS: [Case; 5] = [
    (b"", ""),
    (b" ", ""),
    (b" \t\n\r", ""),
    (b"a b\tc\nd\re", "0:a 2:b 4:c 6:d 8:e"),
    (b"\r\n x \t", "3:x"),
];

const REFUSED: [Case; 10] = [
    (b"a\x0bb", "refused 2 1"),
    (b"a \x0c", "refused 2 2"),
    (b"a\x00", "refused 2 1"),
    (b"ab \x7f", "refused 2 3"),
    (b"\x80", "refused 2 0"),
    (b"x=1\xff", "refused 2 3"),
    (b"x$", "refused 2 1"),
    (b"\"a\"", "refused 2 0"),
    (b"f {", "refused 2 2"),
    (b"a/b", "refused 2 1"),
];

const FIRST: [Case; 4] = [
    (b"a $ #", "refused 2 2"),
    (b"x !! 1234567890", "refused 2 2"),
    (b"1234567890 !!", "refused 2 0"),
    (b"a (*$ a*) $", "refused 2 2"),
];

// Whether no token begins with a byte, and it is no blank.
fn begins_nothing(byte: u8) -> bool {
    match byte {
        0..=8 | 11 | 12 | 14..=31 | 127..=255 => true,
        b'"'..=b'\'' | b'.' | b'/' | b'>'..=b'@' | b'['..=b'`' | b'{'..=b'~' => true,
        _ => false,
    }
}

#[test]
fn blanks_are_passed_over(rt: HostRuntime) -> Result<(), Fail> {
    check_cases(&rt, rt.alloc(), &BLANKS)
}

#[test]
fn other_bytes_are_refused(rt: HostRuntime) -> Result<(), Fail> {
    check_cases(&rt, rt.alloc(), &REFUSED)
}

#[test]
fn the_first_of_many_is_refused(rt: HostRuntime) -> Result<(), Fail> {
    check_cases(&rt, rt.alloc(), &FIRST)
}

#[test]
fn every_byte_alone_is_read_or_refused(rt: HostRuntime) -> Result<(), Fail> {
    for byte in 0..=255 {
        let line = shown(rt.alloc(), &[b' ', byte])?;
        let refused = line.as_str() == "refused 2 1";
        assert_eq!(rt; refused, begins_nothing(byte), "byte {byte}");
    }
    Ok(())
}
