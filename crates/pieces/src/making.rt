// Trees of their parts.
ghost use Rattle.tokens.specs.Tokens.{word, symbol};
ghost use Rattle.pieces.specs.Making.{Made, Joined, Grouped, Assigned, Chosen, Within, Called, Prefixed, Lasts, Mores, BindsLast, BindsMore};

use super::fault::Fault;
use super::front::Reader;
use syntax::tree::{Args, Exp, Lexeme, Operator, Vals};
use tokens::token::{Symbol, Word};

impl<'t, 'a> Reader<'t, 'a> {
    pub fn arith(
        &self,
        left: Exp<'a>,
        place: usize,
        op: Operator,
        right: Exp<'a>,
    ) -> Result<Exp<'a>, Fault>
        ensures { Made (Joined left.entry place op right.entry) result }
    {
        let left = Box::new(self.heap, left)?;
        let right = Box::new(self.heap, right)?;
        Ok(Exp::Arith(left, place, op, right))
    }

    pub fn grouped(&self, place: usize, e: Exp<'a>) -> Result<Exp<'a>, Fault>
        ensures { Made (Grouped place e.entry) result }
    {
        let e = Box::new(self.heap, e)?;
        Ok(Exp::Group(place, e))
    }

    pub fn assigned(
        &self,
        place: usize,
        a: Exp<'a>,
        b: Exp<'a>,
        c: Exp<'a>,
    ) -> Result<Exp<'a>, Fault>
        ensures { Made (Assigned place a.entry b.entry c.entry) result }
    {
        let a = Box::new(self.heap, a)?;
        let b = Box::new(self.heap, b)?;
        let c = Box::new(self.heap, c)?;
        Ok(Exp::Assign(place, a, b, c))
    }

    pub fn chosen(
        &self,
        place: usize,
        a: Exp<'a>,
        b: Exp<'a>,
        c: Exp<'a>,
        d: Exp<'a>,
    ) -> Result<Exp<'a>, Fault>
        ensures { Made (Chosen place a.entry b.entry c.entry d.entry) result }
    {
        let a = Box::new(self.heap, a)?;
        let b = Box::new(self.heap, b)?;
        let c = Box::new(self.heap, c)?;
        let d = Box::new(self.heap, d)?;
        Ok(Exp::If(place, a, b, c, d))
    }

    pub fn within(&self, place: usize, vals: Vals<'a>, e: Exp<'a>) -> Result<Exp<'a>, Fault>
        ensures { Made (Within place vals.entry e.entry) result }
    {
        let vals = Box::new(self.heap, vals)?;
        let e = Box::new(self.heap, e)?;
        Ok(Exp::Let(place, vals, e))
    }

    pub fn called(&self, name: Lexeme<'a>, args: Args<'a>) -> Result<Exp<'a>, Fault>
        ensures { Made (Called name.entry args.entry) result }
    {
        let args = Box::new(self.heap, args)?;
        Ok(Exp::Call(name, args))
    }

    // This and `read` differ in the case of the tree: with a parameter that chooses it they are no plainer.
    pub fn reference(&self, place: usize, e: Exp<'a>) -> Result<Exp<'a>, Fault>
        ensures { Made (Prefixed place (word Word.Ref) e.entry) result }
    {
        let e = Box::new(self.heap, e)?;
        Ok(Exp::Ref(place, e))
    }

    pub fn read(&self, place: usize, e: Exp<'a>) -> Result<Exp<'a>, Fault>
        ensures { Made (Prefixed place (symbol Symbol.Bang) e.entry) result }
    {
        let e = Box::new(self.heap, e)?;
        Ok(Exp::Read(place, e))
    }

    pub fn last(&self, e: Exp<'a>) -> Result<Args<'a>, Fault>
        ensures { Made (Lasts e.entry) result }
    {
        let e = Box::new(self.heap, e)?;
        Ok(Args::Last(e))
    }

    pub fn more(&self, e: Exp<'a>, args: Args<'a>) -> Result<Args<'a>, Fault>
        ensures { Made (Mores e.entry args.entry) result }
    {
        let e = Box::new(self.heap, e)?;
        let args = Box::new(self.heap, args)?;
        Ok(Args::More(e, args))
    }

    pub fn bound_last(
        &self,
        name: Lexeme<'a>,
        mark: Option<Lexeme<'a>>,
        e: Exp<'a>,
    ) -> Result<Vals<'a>, Fault>
        ensures { Made (BindsLast name.entry mark.entry e.entry) result }
    {
        let e = Box::new(self.heap, e)?;
        Ok(Vals::Final(name, mark, e))
    }

    pub fn bound_more(
        &self,
        name: Lexeme<'a>,
        mark: Option<Lexeme<'a>>,
        e: Exp<'a>,
        vals: Vals<'a>,
    ) -> Result<Vals<'a>, Fault>
        ensures { Made (BindsMore name.entry mark.entry e.entry vals.entry) result }
    {
        let e = Box::new(self.heap, e)?;
        let vals = Box::new(self.heap, vals)?;
        Ok(Vals::Then(name, mark, e, vals))
    }
}
