use super::only::Only;
use super::values::Both;
use kinds::find::find_name;
use kinds::kind::Kind;
use kinds::origin::Origin;
use kinds::pair::Pair;
use kinds::sources::Sources;
use kinds::spellings::Spellings;
use std::process::Abort;

const TEXTS: [&[u8]; 9] = [
    b"checked", b"entered", b"form", b"loop", b"clock", b"sum", b"", b"check", b"Checked",
];

fn copy_finds_the_same<K: Kind>(rt: &impl Abort) {
    let spellings = Spellings::of::<K>();
    for text in TEXTS {
        assert_eq!(rt; spellings.find(text), find_name::<K>(text));
    }
}

#[test]
fn copies_find_what_the_kinds_find(rt: HostRuntime) {
    copy_finds_the_same::<Origin>(&rt);
    copy_finds_the_same::<Sources>(&rt);
    copy_finds_the_same::<Both>(&rt);
    copy_finds_the_same::<Pair<Origin, Origin>>(&rt);
    copy_finds_the_same::<Only>(&rt);
    copy_finds_the_same::<Pair<Only, Sources>>(&rt);
}

#[test]
fn a_copy_finds_the_number(rt: HostRuntime) {
    let spellings = Spellings::of::<Both>();
    assert_eq!(rt; spellings.find(b"checked"), Some(0));
    assert_eq!(rt; spellings.find(b"clock"), Some(4));
    assert_eq!(rt; spellings.find(b"check"), None);
}
