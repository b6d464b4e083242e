// The head of a declaration: names, marks, types and parameters.
ghost use Rattle.std.specs.Prelude.{◌≡◌, OnErr};
ghost use Rattle.pieces.specs.Seen.{seen, left};
ghost use Rattle.pieces.specs.Looking.{Headed};
ghost use Rattle.pieces.specs.Headers.{CountsRefs, ReadsType, ReadsParam, ReadsParams};

use super::fault::Fault;
use super::front::{Reader, Sign, Text};
use syntax::tree::{Lexeme, Param, Params, Ty};
use tokens::token::{Symbol, Token, Word};

// So many times `ref` may stand in a type.
const MOST_REFS: u8 = 3;

impl<'t, 'a> Reader<'t, 'a> {
    // A name, its mark, and `=`.
    pub fn head(&mut self) -> Result<(Lexeme<'a>, Option<Lexeme<'a>>), Fault>
        ensures read { Headed self.old.end (seen self.old.rest) (left result self.new.rest) }
        ensures same { self.new.end ≡ self.old.end }
        ensures stays { OnErr result (self.new ≡ self.old) }
    {
        let mut ahead = *self;
        let name = ahead.identifier()?;
        let mark = ahead.text(Text::Binder);
        ahead.expect(Sign::Symbol(Symbol::Equals))?;
        *self = ahead;
        Ok((name, mark))
    }

    // As many times `ref` as stand there, at most `room`, behind a word at `from`.
    fn refs(&mut self, room: u8, from: usize) -> Ty
        ensures read { CountsRefs self.old.end room from (seen self.old.rest) (result, self.new.rest) }
        ensures same { self.new.end ≡ self.old.end }
    {
        let mut ty = Ty {
            depth: 0,
            last: from,
        };
        while ty.depth < room
            && let Some(place) = self.take(Sign::Word(Word::Ref))
        {
            ty = Ty {
                depth: ty.depth + 1,
                last: place,
            };
        }
        ty
    }

    // `:` and a type.
    pub fn typed(&mut self) -> Result<Ty, Fault>
        ensures read { ReadsType self.old.end (seen self.old.rest) (left result self.new.rest) }
        ensures same { self.new.end ≡ self.old.end }
        ensures stays { OnErr result (self.new ≡ self.old) }
    {
        let mut ahead = *self;
        ahead.expect(Sign::Symbol(Symbol::Colon))?;
        let place = ahead.expect(Sign::Word(Word::Int))?;
        let ty = ahead.refs(MOST_REFS, place);
        *self = ahead;
        Ok(ty)
    }

    fn param(&mut self) -> Result<Param<'a>, Fault>
        ensures read { ReadsParam self.old.end (seen self.old.rest) (left result self.new.rest) }
        ensures same { self.new.end ≡ self.old.end }
    {
        let name = self.identifier()?;
        let mark = self.text(Text::Binder);
        let ty = self.typed()?;
        Ok(Param { name, mark, ty })
    }

    // A parameter and at most `room` more. It calls itself, since the list is made from its end.
    pub fn params(&mut self, room: u8) -> Result<Params<'a>, Fault>
        ensures read { ReadsParams self.old.end room (seen self.old.rest) (left result self.new.rest) }
        ensures same { self.new.end ≡ self.old.end }
        ensures stays { OnErr result (self.new ≡ self.old) }
    {
        let mut ahead = *self;
        let x = ahead.param()?;
        if room == 0 {
            *self = ahead;
            return Ok(Params::Sole(x));
        }
        match ahead.take(Sign::Symbol(Symbol::Comma)) {
            Some(_) => {
                let more = ahead.params(room - 1)?;
                let more = Box::new(ahead.heap, more)?;
                *self = ahead;
                Ok(Params::And(x, more))
            }
            None => {
                *self = ahead;
                Ok(Params::Sole(x))
            }
        }
    }
}
