// The end of an atom or a call: the closing word, and the bound marks behind it.
ghost use Rattle.std.specs.Prelude.{◌≡◌, OnErr};
ghost use Rattle.goals.specs.Goals.{marks};
ghost use Rattle.pieces.specs.Seen.{seen, left};
ghost use Rattle.pieces.specs.Reading.{Extends};
ghost use Rattle.pieces.specs.Closing.{Closed, Ended, Applied};

use super::fault::Fault;
use super::front::{Reader, Sign, Text};
use syntax::tree::{Args, Exp, Lexeme, Vals};
use tokens::token::{Symbol, Word};

impl<'t, 'a> Reader<'t, 'a> {
    // The atom with the bound marks that follow it.
    pub fn bounds(&mut self, mut atom: Exp<'a>, depth: u8) -> Result<Exp<'a>, Fault>
        ensures read { Extends self.old.end 0 depth marks atom.entry (seen self.old.rest) (left result self.new.rest) }
        ensures same { self.new.end ≡ self.old.end }
        ensures stays { OnErr result (self.new ≡ self.old) }
    {
        let mut ahead = *self;
        while let Some(mark) = ahead.text(Text::Bound) {
            atom = Exp::Bounded(Box::new(ahead.heap, atom)?, mark);
        }
        *self = ahead;
        Ok(atom)
    }

    // The `)` of a bracket and the bound marks that follow it.
    pub fn closed(&mut self, e: Exp<'a>, depth: u8) -> Result<Exp<'a>, Fault>
        ensures read { Closed self.old.end depth e.entry (seen self.old.rest) (left result self.new.rest) }
        ensures same { self.new.end ≡ self.old.end }
        ensures stays { OnErr result (self.new ≡ self.old) }
    {
        let mut ahead = *self;
        ahead.expect(Sign::Symbol(Symbol::Close))?;
        let atom = ahead.bounds(e, depth)?;
        *self = ahead;
        Ok(atom)
    }

    // The `end` of a `let` at `place` and the bound marks that follow it.
    pub fn ended(
        &mut self,
        place: usize,
        vals: Vals<'a>,
        e: Exp<'a>,
        depth: u8,
    ) -> Result<Exp<'a>, Fault>
        ensures read { Ended self.old.end depth place vals.entry e.entry (seen self.old.rest) (left result self.new.rest) }
        ensures same { self.new.end ≡ self.old.end }
        ensures stays { OnErr result (self.new ≡ self.old) }
    {
        let mut ahead = *self;
        ahead.expect(Sign::Word(Word::End))?;
        let e = ahead.within(place, vals, e)?;
        let marked = ahead.bounds(e, depth)?;
        *self = ahead;
        Ok(marked)
    }

    // The `)` of a call.
    pub fn applied(&mut self, name: Lexeme<'a>, args: Args<'a>, depth: u8) -> Result<Exp<'a>, Fault>
        ensures read { Applied self.old.end depth name.entry args.entry (seen self.old.rest) (left result self.new.rest) }
        ensures same { self.new.end ≡ self.old.end }
        ensures stays { OnErr result (self.new ≡ self.old) }
    {
        let mut ahead = *self;
        ahead.expect(Sign::Symbol(Symbol::Close))?;
        let call = ahead.called(name, args)?;
        *self = ahead;
        Ok(call)
    }
}
