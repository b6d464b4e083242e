ghost use Rattle.std.specs.Prelude.{◌≡◌, Decides};

// Whether two byte strings are equal. All comparisons of names go through it.
pub fn same_bytes(a: &[u8], b: &[u8]) -> bool
    ensures { Decides result (a.now ≡ b.now) }
{
    a == b
}
