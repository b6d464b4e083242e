ghost use Rattle.std.specs.Prelude.{◌≡◌, ◌<◌, ◌≤◌, Decides, ◌==◌, ◌∷◌, map, length, IfSome, IfOk, nat_le};
ghost use Rattle.std.specs.List.{list_all, position};
ghost use Rattle.tokens.specs.Bytes.{byte};
ghost use Rattle.tokens.specs.Limits.{longest_name};
ghost use Rattle.tokens.specs.Marks.{name, names_of, groups_of, grouped, parts, further};

use super::bytes::Class;
use std::alloc::{AllocError, Global};

// The longest identifier, and the longest name in a mark.
const LONGEST_NAME: usize = 16;

// The front of some bytes, and what follows the byte that ends it.
#[derive(Clone, Copy)]
pub struct Cut<'a> {
    pub part: &'a [u8],
    pub rest: Option<&'a [u8]>,
}

// Where the first `sep` is.
fn place_of(bytes: &[u8], sep: u8) -> Option<usize>
    ensures { result ≡ position (λ b. b == sep) bytes.now }
{
    bytes.iter().position(|b| *b == sep)
}

// Cuts at the first `sep`: with `/` a mark is gone through group by group, and with `,` a group name by name. For a caller that
// wants one part at a time and no memory.
pub fn first_part<'a>(bytes: &'a [u8], sep: u8) -> Cut<'a>
    ensures parts { parts sep bytes.now ≡ result.part.now ∷ further sep result.rest }
    ensures shorter { IfSome result.rest (λ rest. length rest.now < length bytes.now) }
{
    match place_of(bytes, sep) {
        Some(n) => Cut {
            part: &bytes[0..n],
            rest: Some(&bytes[n + 1..]),
        },
        None => Cut {
            part: bytes,
            rest: None,
        },
    }
}

// Whether a name may have so many bytes.
pub(super) fn is_short(len: usize) -> bool
    ensures { result ≡ nat_le len longest_name }
{
    len <= LONGEST_NAME
}

// Whether a name in a mark may have so many letters.
fn is_name_len(len: usize) -> bool
    ensures { Decides result ((1 ≤ len) × (len ≤ longest_name)) }
{
    (1..=LONGEST_NAME).contains(&len)
}

pub(super) fn is_name(bytes: &[u8]) -> bool
    ensures { result ≡ name bytes.now }
{
    is_name_len(bytes.len()) && bytes.iter().all(|b| Class::Letter.has(*b))
}

// Whether a group is empty or names joined by `,`.
fn is_group(group: &[u8]) -> bool
    ensures { result ≡ list_all name (names_of group.now) }
{
    group.is_empty() || group.split(|b| *b == b',').all(is_name)
}

// Whether a text is groups joined by `/`.
pub(super) fn is_grouped(mark: &[u8]) -> bool
    ensures { result ≡ grouped mark.now }
{
    mark.split(|b| *b == b'/').all(is_group)
}

// The parts between the bytes `sep`.
fn split<'a>(heap: Global, bytes: &'a [u8], sep: u8) -> Result<Vec<&'a [u8]>, AllocError>
    ensures { IfOk result (λ v. map (λ s. s.now) v.items ≡ parts sep bytes.now) }
{
    bytes.split(|b| *b == sep).collect(heap)
}

// How many parts there are between the bytes `sep`.
fn part_count(bytes: &[u8], sep: u8) -> usize
    ensures { result ≡ length (parts sep bytes.now) }
{
    bytes.split(|b| *b == sep).count()
}

// The groups of a binder mark, in order.
pub fn groups<'a>(heap: Global, mark: &'a [u8]) -> Result<Vec<&'a [u8]>, AllocError>
    ensures { IfOk result (λ v. map (λ s. s.now) v.items ≡ parts (byte "/") mark.now) }
{
    split(heap, mark, b'/')
}

// The names of a group, in order.
pub fn names<'a>(heap: Global, group: &'a [u8]) -> Result<Vec<&'a [u8]>, AllocError>
    ensures { IfOk result (λ v. map (λ s. s.now) v.items ≡ names_of group.now) }
{
    if group.is_empty() {
        return Ok(Vec::new(heap));
    }
    split(heap, group, b',')
}

// How many groups a mark has.
pub fn group_count(mark: &[u8]) -> usize
    ensures { result ≡ length (groups_of mark.now) }
{
    part_count(mark, b'/')
}
