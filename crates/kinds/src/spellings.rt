ghost use Rattle.std.specs.Prelude.{◌≡◌, ℕ, List};
ghost use Rattle.kinds.specs.Find.{number_of};
ghost use Rattle.kinds.specs.Tables.{Copies, number_in};

use super::find::same_spelling;
use super::kind::{Kind, NameNumber};
use arrayvec::ArrayVec;

// The most names that a kind may have.
const MOST_NAMES: usize = 200;

// The spellings of a kind's names by number, for code that does not know the kind.
#[derive(Drop)]
pub struct Spellings {
    words: ArrayVec<&'static [u8], MOST_NAMES>,
}

fn copy_spellings<K: Kind>() -> Spellings
    ensures { Copies K.Kind result }
{
    let mut words = ArrayVec::new();
    for number in 0..K::names() {
        words.push(K::spelling(number));
    }
    Spellings { words }
}

impl Spellings {
    // A copy of a kind's spellings, in which every text is found as the kind finds it.
    pub fn of<K: Kind>() -> Spellings
        ensures copies { Copies K.Kind result }
        ensures finds { (sought : List ℕ) → number_in result sought ≡ number_of K.Kind sought }
    {
        copy_spellings::<K>()
    }

    // The lowest number with this spelling.
    #[tactic(auto, using(crate::proofs::Copied::found_in, crate::proofs::Copied::not_here, crate::proofs::Copied::none_in))]
    pub fn find(&self, sought: &[u8]) -> Option<NameNumber>
        ensures { result ≡ number_in self.now sought.now }
    {
        for (number, spelling) in self.words.iter().enumerate() {
            if same_spelling(spelling, sought) {
                return Some(number as NameNumber);
            }
        }
        None
    }
}
