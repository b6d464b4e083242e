// Recursive descent over the tokens of an expression. A function reads the longest front that is what its name says. Where the
// token that opened a part stands, and how many levels are open, are parameters beside the reader: a part is told them by the one
// round it and does not change them, so a struct of all three would have to be made anew for each part.
ghost use Rattle.std.specs.Prelude.{◌≡◌, [], ◌∷◌};
ghost use Rattle.tokens.specs.Tokens.{word, symbol, identifier};
ghost use Rattle.syntax.specs.Sorts.{at};
ghost use Rattle.syntax.specs.Meanings.{text_of};
ghost use Rattle.goals.specs.Goals.{exp as exp_goal, sum as sum_goal, app as app_goal, atom as atom_goal, group as group_goal, assign};
ghost use Rattle.pieces.specs.Seen.{seen, left};
ghost use Rattle.pieces.specs.Reading.{Reads, ReadsArgs, ReadsVals, Fills, Assigns};
ghost use Rattle.pieces.specs.Taking.{strength_of, part_strength, whole_of, part_of};

use pieces::fault::Fault;
use pieces::front::{Reader, Sign, Text, deeper};
use pieces::looking::Tier;
use syntax::tree::{Args, Exp, Lexeme, Vals};
use tokens::token::{Symbol, Token, TokenKind, Word};

#[cycle(expression)]
pub(super) fn exp<'a>(reader: &mut Reader<'_, 'a>, depth: u8) -> Result<Exp<'a>, Fault>
    ensures read { Reads reader.old.end 4 depth exp_goal (seen reader.old.rest) (left result reader.new.rest) }
    ensures same { reader.new.end ≡ reader.old.end }
{
    match reader.take(Sign::Word(Word::If)) {
        Some(place) => conditional(reader, place, depth),
        None => chain(reader, Tier::Sum, depth),
    }
}

// What follows an `if` at `place`.
#[cycle(expression)]
fn conditional<'a>(reader: &mut Reader<'_, 'a>, place: usize, depth: u8) -> Result<Exp<'a>, Fault>
    ensures read { Reads reader.old.end 4 depth exp_goal (at place (word Word.If) ∷ seen reader.old.rest) (left result reader.new.rest) }
    ensures same { reader.new.end ≡ reader.old.end }
{
    let inner = deeper(depth).ok_or(Fault::TooDeep(place))?;
    let a = chain(reader, Tier::Sum, inner)?;
    reader.expect(Sign::Symbol(Symbol::Less))?;
    let b = chain(reader, Tier::Sum, inner)?;
    reader.expect(Sign::Word(Word::Then))?;
    let c = exp(reader, inner)?;
    reader.expect(Sign::Word(Word::Else))?;
    let d = exp(reader, inner)?;
    reader.chosen(place, a, b, c, d)
}

// What the operators of a tier join.
#[cycle(expression)]
fn part<'a>(reader: &mut Reader<'_, 'a>, tier: Tier, depth: u8) -> Result<Exp<'a>, Fault>
    ensures read { Reads reader.old.end (part_strength tier) depth (part_of tier) (seen reader.old.rest) (left result reader.new.rest) }
    ensures same { reader.new.end ≡ reader.old.end }
{
    match tier {
        Tier::Sum => chain(reader, Tier::Term, depth),
        Tier::Term => app(reader, depth),
    }
}

// Parts with the operators of a tier between them, grouped to the left.
#[cycle(expression)]
fn chain<'a>(reader: &mut Reader<'_, 'a>, tier: Tier, depth: u8) -> Result<Exp<'a>, Fault>
    ensures read { Reads reader.old.end (strength_of tier) depth (whole_of tier) (seen reader.old.rest) (left result reader.new.rest) }
    ensures same { reader.new.end ≡ reader.old.end }
{
    let mut joined = part(reader, tier, depth)?;
    while let Some((place, op)) = reader.operator(tier) {
        let next = part(reader, tier, depth)?;
        joined = reader.arith(joined, place, op, next)?;
    }
    Ok(joined)
}

#[cycle(expression)]
fn app<'a>(reader: &mut Reader<'_, 'a>, depth: u8) -> Result<Exp<'a>, Fault>
    ensures read { Reads reader.old.end 1 depth app_goal (seen reader.old.rest) (left result reader.new.rest) }
    ensures same { reader.new.end ≡ reader.old.end }
{
    if let Some(place) = reader.take(Sign::Word(Word::Ref)) {
        return cell(reader, place, depth);
    }
    if let Some(place) = reader.take(Sign::Symbol(Symbol::Bang)) {
        return content(reader, place, depth);
    }
    match reader.text(Text::Name) {
        Some(name) => named(reader, name, depth),
        None => atom(reader, depth),
    }
}

// What follows a `ref` at `place`. That of a `!` differs in the tree that is made: two functions are plainer than one with a
// parameter for it.
#[cycle(expression)]
fn cell<'a>(reader: &mut Reader<'_, 'a>, place: usize, depth: u8) -> Result<Exp<'a>, Fault>
    ensures read { Reads reader.old.end 1 depth app_goal (at place (word Word.Ref) ∷ seen reader.old.rest) (left result reader.new.rest) }
    ensures same { reader.new.end ≡ reader.old.end }
{
    let e = atom(reader, depth)?;
    reader.reference(place, e)
}

// What follows a `!` at `place`.
#[cycle(expression)]
fn content<'a>(reader: &mut Reader<'_, 'a>, place: usize, depth: u8) -> Result<Exp<'a>, Fault>
    ensures read { Reads reader.old.end 1 depth app_goal (at place (symbol Symbol.Bang) ∷ seen reader.old.rest) (left result reader.new.rest) }
    ensures same { reader.new.end ≡ reader.old.end }
{
    let e = atom(reader, depth)?;
    reader.read(place, e)
}

// What follows a name.
#[cycle(expression)]
fn named<'a>(reader: &mut Reader<'_, 'a>, name: Lexeme<'a>, depth: u8) -> Result<Exp<'a>, Fault>
    ensures read { Reads reader.old.end 1 depth app_goal (at name.entry.place (identifier (text_of name.entry).bytes) ∷ seen reader.old.rest) (left result reader.new.rest) }
    ensures same { reader.new.end ≡ reader.old.end }
{
    match reader.take(Sign::Symbol(Symbol::Open)) {
        Some(place) => call(reader, name, place, depth),
        None => reader.bounds(Exp::Variable(name), depth),
    }
}

// What follows a name and a `(` at `place`.
#[cycle(expression)]
fn call<'a>(
    reader: &mut Reader<'_, 'a>,
    name: Lexeme<'a>,
    place: usize,
    depth: u8,
) -> Result<Exp<'a>, Fault>
    ensures read { Reads reader.old.end 1 depth app_goal (at name.entry.place (identifier (text_of name.entry).bytes) ∷ (at place (symbol Symbol.Open) ∷ seen reader.old.rest)) (left result reader.new.rest) }
    ensures same { reader.new.end ≡ reader.old.end }
{
    let inner = deeper(depth).ok_or(Fault::TooDeep(place))?;
    let args = args(reader, inner)?;
    reader.applied(name, args, depth)
}

// The arguments of a call. This and `vals` call themselves, since a list is made from its end.
#[cycle(expression)]
fn args<'a>(reader: &mut Reader<'_, 'a>, depth: u8) -> Result<Args<'a>, Fault>
    ensures read { ReadsArgs reader.old.end depth (seen reader.old.rest) (left result reader.new.rest) }
    ensures same { reader.new.end ≡ reader.old.end }
{
    let e = exp(reader, depth)?;
    match reader.take(Sign::Symbol(Symbol::Comma)) {
        Some(_) => {
            let more = args(reader, depth)?;
            reader.more(e, more)
        }
        None => reader.last(e),
    }
}

#[cycle(expression)]
fn atom<'a>(reader: &mut Reader<'_, 'a>, depth: u8) -> Result<Exp<'a>, Fault>
    ensures read { Reads reader.old.end 0 depth atom_goal (seen reader.old.rest) (left result reader.new.rest) }
    ensures same { reader.new.end ≡ reader.old.end }
{
    let Token { place, kind } = reader.next()?;
    match kind {
        TokenKind::Literal(bytes) => reader.bounds(Exp::Literal(Lexeme { place, bytes }), depth),
        TokenKind::Identifier(bytes) => reader.bounds(
            Exp::Variable(Lexeme { place, bytes }),
            depth,
        ),
        TokenKind::Symbol(Symbol::Open) => group(reader, place, depth),
        TokenKind::Word(Word::Let) => block(reader, place, depth),
        _ => Err(Fault::Misplaced(place)),
    }
}

// What follows a `(` at `place`.
#[cycle(expression)]
fn group<'a>(reader: &mut Reader<'_, 'a>, place: usize, depth: u8) -> Result<Exp<'a>, Fault>
    ensures read { Reads reader.old.end 0 depth atom_goal (at place (symbol Symbol.Open) ∷ seen reader.old.rest) (left result reader.new.rest) }
    ensures same { reader.new.end ≡ reader.old.end }
{
    let inner = deeper(depth).ok_or(Fault::TooDeep(place))?;
    let e = inside(reader, place, inner)?;
    reader.closed(e, depth)
}

// What stands between a `(` at `place` and its `)`: the tree of both and that.
#[cycle(expression)]
fn inside<'a>(reader: &mut Reader<'_, 'a>, place: usize, depth: u8) -> Result<Exp<'a>, Fault>
    ensures read { Fills reader.old.end depth place (group_goal ∷ []) (seen reader.old.rest) (left result reader.new.rest) }
    ensures same { reader.new.end ≡ reader.old.end }
{
    match reader.take(Sign::Word(Word::If)) {
        Some(start) => {
            let e = conditional(reader, start, depth)?;
            reader.grouped(place, e)
        }
        None => bracket(reader, place, depth),
    }
}

#[cycle(expression)]
fn bracket<'a>(reader: &mut Reader<'_, 'a>, place: usize, depth: u8) -> Result<Exp<'a>, Fault>
    ensures read { Fills reader.old.end depth place (sum_goal ∷ assign ∷ []) (seen reader.old.rest) (left result reader.new.rest) }
    ensures same { reader.new.end ≡ reader.old.end }
{
    let e = chain(reader, Tier::Sum, depth)?;
    match reader.take(Sign::Symbol(Symbol::Assign)) {
        Some(_) => assignment(reader, place, e, depth),
        None => reader.grouped(place, e),
    }
}

// What follows a `:=` behind `target`, in a bracket at `place`.
#[cycle(expression)]
fn assignment<'a>(
    reader: &mut Reader<'_, 'a>,
    place: usize,
    target: Exp<'a>,
    depth: u8,
) -> Result<Exp<'a>, Fault>
    ensures read { Assigns reader.old.end depth place target.entry (seen reader.old.rest) (left result reader.new.rest) }
    ensures same { reader.new.end ≡ reader.old.end }
{
    let b = chain(reader, Tier::Sum, depth)?;
    reader.expect(Sign::Symbol(Symbol::Semicolon))?;
    let c = exp(reader, depth)?;
    reader.assigned(place, target, b, c)
}

// What follows a `let` at `place`.
#[cycle(expression)]
fn block<'a>(reader: &mut Reader<'_, 'a>, place: usize, depth: u8) -> Result<Exp<'a>, Fault>
    ensures read { Reads reader.old.end 0 depth atom_goal (at place (word Word.Let) ∷ seen reader.old.rest) (left result reader.new.rest) }
    ensures same { reader.new.end ≡ reader.old.end }
{
    let inner = deeper(depth).ok_or(Fault::TooDeep(place))?;
    reader.expect(Sign::Word(Word::Val))?;
    let vals = vals(reader, inner)?;
    reader.expect(Sign::Word(Word::In))?;
    let e = exp(reader, inner)?;
    reader.ended(place, vals, e, depth)
}

// The declarations of a `let`, from behind the first `val`.
#[cycle(expression)]
fn vals<'a>(reader: &mut Reader<'_, 'a>, depth: u8) -> Result<Vals<'a>, Fault>
    ensures read { ReadsVals reader.old.end depth (seen reader.old.rest) (left result reader.new.rest) }
    ensures same { reader.new.end ≡ reader.old.end }
{
    let (name, mark) = reader.head()?;
    let e = exp(reader, depth)?;
    match reader.take(Sign::Word(Word::Val)) {
        Some(_) => {
            let more = vals(reader, depth)?;
            reader.bound_more(name, mark, e, more)
        }
        None => reader.bound_last(name, mark, e),
    }
}
