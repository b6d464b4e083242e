ghost use Rattle.std.specs.Prelude.{◌≡◌, ◌+◌, length, take, drop, Some};
ghost use Rattle.std.specs.List.{prefix_len};
ghost use Rattle.std.specs.Option.{option_map};
ghost use Rattle.tokens.specs.Meanings.{meaning};
ghost use Rattle.tokens.specs.Tokens.{symbol as symbol_token};
ghost use Rattle.tokens.specs.Finding.{word_of, operator_of, sign_of, word_run, digit_run, operator_run, closes, binder_mark, bound_mark, opened, token_at, sized};
ghost use Rattle.tokens.specs.Classes.{in_class};
ghost use Rattle.tokens.specs.Found.{found_as, enclosed};
ghost use Rattle.tokens.specs.Bytes.{letter, digit, tail, operator, marking};

use super::bytes::{Class, run_len};
use super::marks::{is_grouped, is_name, is_short};
use super::token::{Mark, Symbol, TokenKind, Word};
use kinds::bytes::same_bytes;

const LONGEST_LITERAL: usize = 9;

const WORDS: [Word; 12] = [
    Word::Val,
    Word::Fun,
    Word::Let,
    Word::In,
    Word::End,
    Word::If,
    Word::Then,
    Word::Else,
    Word::Ref,
    Word::Int,
    Word::Div,
    Word::Mod,
];

// A reserved word, or else an identifier. A `match` of the bytes against the twelve words was tried: its last arm is reached in some
// thirty ways, and the proof of that arm did not close.
fn word_of<'a>(run: &'a [u8]) -> TokenKind<'a>
    ensures { meaning result ≡ word_of run.now }
{
    for word in WORDS {
        if same_bytes(run, word.text().as_bytes()) {
            return TokenKind::Word(word);
        }
    }
    TokenKind::Identifier(run)
}

fn sign_of(b: u8) -> Option<Symbol>
    ensures { result ≡ sign_of b }
{
    match b {
        b'!' => Some(Symbol::Bang),
        b'+' => Some(Symbol::Plus),
        b'-' => Some(Symbol::Minus),
        b'*' => Some(Symbol::Star),
        b'<' => Some(Symbol::Less),
        b':' => Some(Symbol::Colon),
        b'=' => Some(Symbol::Equals),
        _ => None,
    }
}

// The symbol that a run of operator characters is.
fn operator_of(run: &[u8]) -> Option<Symbol>
    ensures { result ≡ operator_of run.now }
{
    match run {
        [b] => sign_of(*b),
        [b':', b'='] => Some(Symbol::Assign),
        _ => None,
    }
}

// A token, and how many bytes it has.
#[derive(Clone, Copy)]
pub struct Found<'a> {
    pub len: usize,
    pub kind: TokenKind<'a>,
}

// The longest front whose bytes are of the class.
fn run<'a>(text: &'a [u8], class: Class) -> &'a [u8]
    ensures run { result.now ≡ take (prefix_len (in_class class) text.now) text.now }
    ensures len { length result.now ≡ prefix_len (in_class class) text.now }
{
    &text[0..run_len(text, class)]
}

fn word<'a>(text: &'a [u8]) -> Option<Found<'a>>
    ensures { found_as result ≡ word_run (prefix_len tail text.now) text.now }
{
    let run = run(text, Class::Tail);
    is_short(run.len()).then_some(Found {
        len: run.len(),
        kind: word_of(run),
    })
}

fn literal<'a>(text: &'a [u8]) -> Option<Found<'a>>
    ensures { found_as result ≡ digit_run (prefix_len digit text.now) text.now }
{
    let digits = run(text, Class::Digit);
    (digits.len() <= LONGEST_LITERAL).then_some(Found {
        len: digits.len(),
        kind: TokenKind::Literal(digits),
    })
}

fn operator<'a>(text: &'a [u8]) -> Option<Found<'a>>
    ensures { found_as result ≡ operator_run (prefix_len operator text.now) text.now }
{
    let run = run(text, Class::Operator);
    Some(Found {
        len: run.len(),
        kind: TokenKind::Symbol(operator_of(run)?),
    })
}

// Whether `*)` stands at the front.
fn ends_mark(text: &[u8]) -> bool
    ensures { result ≡ closes text.now }
{
    matches!(text, [b'*', b')', ..])
}

// What stands in a mark: the longest front of the class, where `*)` follows it.
fn marked<'a>(inner: &'a [u8], class: Class) -> Option<&'a [u8]>
    ensures { option_map (λ s. s.now) result ≡ enclosed (in_class class) inner.now }
{
    let run = run(inner, class);
    ends_mark(&inner[run.len()..]).then_some(run)
}

// A mark, with the five bytes round what stands in it.
fn mark<'a>(inner: &'a [u8], mark: Mark<'a>) -> Found<'a>
    ensures { found_as (Some result) ≡ sized (length inner.now + 5) (meaning (TokenKind.Mark mark.entry)) }
{
    Found {
        len: inner.len() + 5,
        kind: TokenKind::Mark(mark),
    }
}

// The mark that `(*$` opens, from behind that. `bound` differs in the class, the test and the case: as one function both would need
// three parameters for their two lines.
fn binder<'a>(inner: &'a [u8]) -> Option<Found<'a>>
    ensures { found_as result ≡ binder_mark (prefix_len marking inner.now) inner.now }
{
    let groups = marked(inner, Class::Marking)?;
    is_grouped(groups).then_some(mark(groups, Mark::Binder(groups)))
}

// The mark that `(*!` opens, from behind that.
fn bound<'a>(inner: &'a [u8]) -> Option<Found<'a>>
    ensures { found_as result ≡ bound_mark (prefix_len letter inner.now) inner.now }
{
    let name = marked(inner, Class::Letter)?;
    is_name(name).then_some(mark(name, Mark::Bound(name)))
}

// What stands at a `(`: the symbol, or a mark where a `*` follows.
fn open<'a>(text: &'a [u8]) -> Option<Found<'a>>
    ensures { found_as result ≡ opened (drop 1 text.now) }
{
    match text {
        [_, b'*', b'$', inner @ ..] => binder(inner),
        [_, b'*', b'!', inner @ ..] => bound(inner),
        [_, b'*', ..] => None,
        _ => symbol(Symbol::Open),
    }
}

fn symbol<'a>(symbol: Symbol) -> Option<Found<'a>>
    ensures { found_as result ≡ sized 1 (symbol_token symbol) }
{
    Some(Found {
        len: 1,
        kind: TokenKind::Symbol(symbol),
    })
}

// The token at the front.
pub(super) fn token_at<'a>(text: &'a [u8]) -> Option<Found<'a>>
    ensures { found_as result ≡ token_at text.now }
{
    if text.is_empty() {
        return None;
    }
    match text[0] {
        b'(' => open(text),
        b')' => symbol(Symbol::Close),
        b',' => symbol(Symbol::Comma),
        b';' => symbol(Symbol::Semicolon),
        b'!' | b'+' | b'-' | b'*' | b'<' | b':' | b'=' => operator(text),
        b'0'..=b'9' => literal(text),
        b'A'..=b'Z' | b'a'..=b'z' => word(text),
        _ => None,
    }
}
