// Values made and compared through the interface of a kind alone.
use kinds::bytes::same_bytes;
use kinds::kind::{Kind, NameNumber};
use kinds::origin::Origin;
use kinds::pair::Pair;
use kinds::sources::Sources;
use std::process::Abort;

pub type Both = Pair<Origin, Sources>;

pub fn same<K: Kind>(a: K, b: K) -> bool {
    a.at_or_below(b) & b.at_or_below(a)
}

pub fn has_name<K: Kind>(value: K, number: NameNumber) -> bool {
    K::value(number).at_or_below(value)
}

pub fn check_spelling<K: Kind>(rt: &impl Abort, number: NameNumber, text: &[u8]) {
    assert!(rt; same_bytes(K::spelling(number), text));
}

// The value of this rank, from 0 to 2.
pub fn origin(rank: u8) -> Origin {
    match rank {
        0 => Origin::bottom(),
        1 => Origin::value(0),
        _ => Origin::value(1),
    }
}

// The set of the flags whose bits are 1: form 1, loop 2, clock 4.
pub fn sources(bits: u8) -> Sources {
    let mut set = Sources::bottom();
    if bits & 1 != 0 {
        set = set.join(Sources::value(0));
    }
    if bits & 2 != 0 {
        set = set.join(Sources::value(1));
    }
    if bits & 4 != 0 {
        set = set.join(Sources::value(2));
    }
    set
}
