// A declaration: `val` or `fun`, and what follows it.
ghost use Rattle.std.specs.Prelude.{◌∷◌};
ghost use Rattle.tokens.specs.Tokens.{word};
ghost use Rattle.syntax.specs.Sorts.{at};
ghost use Rattle.pieces.specs.Seen.{seen, left};
ghost use Rattle.grammar.specs.Declaring.{ReadsDec};

use super::expression::exp;
use pieces::fault::Fault;
use pieces::front::{Reader, Sign, Text};
use syntax::tree::Dec;
use tokens::token::{Symbol, Token, TokenKind, Word};

// So many parameters may follow the first.
const MORE_PARAMS: u8 = 7;

// What follows a `val` at `place`.
fn val<'a>(reader: &mut Reader<'_, 'a>, place: usize) -> Result<Dec<'a>, Fault>
    ensures { ReadsDec reader.old.end (at place (word Word.Val) ∷ seen reader.old.rest) (left result reader.new.rest) }
{
    let (name, mark) = reader.head()?;
    let e = exp(reader, 0)?;
    Ok(Dec::Val(name, mark, e))
}

// What follows a `fun` at `place`.
fn fun<'a>(reader: &mut Reader<'_, 'a>, place: usize) -> Result<Dec<'a>, Fault>
    ensures { ReadsDec reader.old.end (at place (word Word.Fun) ∷ seen reader.old.rest) (left result reader.new.rest) }
{
    let name = reader.identifier()?;
    reader.expect(Sign::Symbol(Symbol::Open))?;
    let params = reader.params(MORE_PARAMS)?;
    reader.expect(Sign::Symbol(Symbol::Close))?;
    let ty = reader.typed()?;
    let mark = reader.text(Text::Binder);
    reader.expect(Sign::Symbol(Symbol::Equals))?;
    let e = exp(reader, 0)?;
    Ok(Dec::Fun(name, params, ty, mark, e))
}

pub(super) fn dec<'a>(reader: &mut Reader<'_, 'a>) -> Result<Dec<'a>, Fault>
    ensures { ReadsDec reader.old.end (seen reader.old.rest) (left result reader.new.rest) }
{
    let Token { place, kind } = reader.next()?;
    match kind {
        TokenKind::Word(Word::Val) => val(reader, place),
        TokenKind::Word(Word::Fun) => fun(reader, place),
        _ => Err(Fault::Misplaced(place)),
    }
}
