use kinds::bytes::same_bytes;

#[test]
fn equal_bytes_are_the_same(rt: HostRuntime) {
    assert!(rt; same_bytes(b"clock", b"clock"));
    assert!(rt; same_bytes(b"", b""));
}

#[test]
fn other_bytes_are_not_the_same(rt: HostRuntime) {
    assert!(rt; !same_bytes(b"clock", b"block"), "the first byte");
    assert!(rt; !same_bytes(b"clock", b"cloch"), "the last byte");
    assert!(rt; !same_bytes(b"clo", b"clock"), "a prefix");
    assert!(rt; !same_bytes(b"clock", b"clo"), "a longer text");
    assert!(rt; !same_bytes(b"", b"clock"), "the empty text");
}
