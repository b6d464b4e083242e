// What `read` answers, without the tree.
use grammar::read::read;
use std::alloc::{AllocError, Global};
use std::process::Abort;
use std::test::Fail;

// A text, and the number and place of its refusal.
pub type Case<'a> = (&'a [u8], u8, usize);

// The number and place of the refusal, and none where the text is a declaration. Want of memory becomes an error.
pub fn refused(heap: Global, text: &[u8]) -> Result<Option<(u8, usize)>, Fail> {
    match read(heap, text) {
        Ok(_tree) => Ok(None),
        Err(refusal) => {
            let number = refusal.number().ok_or("want of memory")?;
            let place = refusal.values().0.ok_or("no place")?;
            Ok(Some((number, place)))
        }
    }
}

pub fn check_refused(rt: &impl Abort, heap: Global, cases: &[Case]) -> Result<(), Fail> {
    for (text, number, place) in cases {
        let found = refused(heap, text)?;
        assert_eq!(rt;
            found,
            Some((*number, *place)),
            "text {}",
            text.escape_ascii()
        );
    }
    Ok(())
}

pub fn check_reads(rt: &impl Abort, heap: Global, texts: &[&[u8]]) -> Result<(), Fail> {
    for text in texts {
        assert_eq!(rt; refused(heap, text)?, None, "text {}", text.escape_ascii());
    }
    Ok(())
}

pub fn append(text: &mut Vec<u8>, piece: &[u8], times: usize) -> Result<(), AllocError> {
    for _ in 0..times {
        text.extend_from_slice(piece)?;
    }
    Ok(())
}
