ghost use Rattle.std.specs.Prelude.{◌≡◌, Decides};
ghost use Rattle.kinds.specs.Find.{SameSpelling, FoundAs, number_of};

use super::bytes::same_bytes;
use super::kind::{Kind, NameNumber};

// Whether a name with this spelling is meant. Nothing else says what "the same spelling" is.
pub(super) fn same_spelling(spelling: &[u8], sought: &[u8]) -> bool
    ensures { Decides result (SameSpelling spelling.now sought.now) }
{
    same_bytes(spelling, sought)
}

// The lowest number of a name with this spelling. `Spellings::find` goes over a table in the same way: one function for both would
// take the count and the spelling of a number from its caller, for a loop of three lines.
pub fn find_name<K: Kind>(sought: &[u8]) -> Option<NameNumber>
    ensures number { result ≡ number_of K.Kind sought.now }
    ensures lowest { FoundAs K.Kind sought.now result }
{
    for number in 0..K::names() {
        if same_spelling(K::spelling(number), sought) {
            return Some(number);
        }
    }
    None
}
