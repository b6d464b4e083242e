use super::shown::shown;
use std::alloc::{AllocError, Global};
use std::test::Fail;
use tokens::lex::lex;

// A front, a piece that is repeated, how often, a back, and the line that shows how all this is read.
type Long<'a> = (&'a [u8], &'a [u8], usize, &'a [u8], &'a str);

const LONG: [Long; 15] = [
    (b"", b" ", 4096, b"", ""),
    (b"", b" ", 4097, b"", "refused 1 4096"),
    (b"", b" ", 4095, b"x", "4095:x"),
    (b"", b" ", 4096, b"x", "refused 1 4096"),
    (b"", b" ", 4095, b"$", "refused 2 4095"),
    (b"", b" ", 4096, b"$", "refused 1 4096"),
    (b"$", b" ", 4095, b"", "refused 2 0"),
    (b"$", b" ", 4096, b"", "refused 1 4096"),
    (b"", b"7", 4096, b"", "refused 2 0"),
    (b"", b"a", 4096, b"", "refused 2 0"),
    (b"(*$", b"a", 4091, b"*)", "refused 2 0"),
    (b"val q = ref cap\r\n", b"!", 4079, b"", "refused 2 17"),
    (b"val q = ref cap\r\n", b"!", 4080, b"", "refused 1 4096"),
    (b"val a =", b" ", 4089, b"1", "refused 1 4096"),
    (b"val g = 1", b" + 1", 1500, b"", "refused 1 4096"),
];

fn repeated(heap: Global, front: &[u8], piece: &[u8], times: usize) -> Result<Vec<u8>, AllocError> {
    let mut text = front.to_vec(heap)?;
    for _ in 0..times {
        text.extend_from_slice(piece)?;
    }
    Ok(text)
}

#[test]
fn texts_have_at_most_4096_bytes(rt: HostRuntime) -> Result<(), Fail> {
    for (front, piece, times, back, line) in LONG {
        let mut text = repeated(rt.alloc(), front, piece, times)?;
        text.extend_from_slice(back)?;
        let found = shown(rt.alloc(), &text)?;
        assert_eq!(rt;
            found.as_str(),
            line,
            "{times} times {}",
            piece.escape_ascii()
        );
    }
    Ok(())
}

#[test]
fn a_longest_text_may_be_all_tokens(rt: HostRuntime) -> Result<(), Fail> {
    let text = repeated(rt.alloc(), b"", b";", 4096)?;
    assert_eq!(rt; lex(rt.alloc(), &text)?.len(), 4096);
    Ok(())
}
