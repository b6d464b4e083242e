ghost use Rattle.std.specs.Prelude.{◌≡◌, ℕ, ◌<◌, ◌≤◌, Bool, List};
ghost use Rattle.kinds.specs.Laws.{KindLaws, Limited, Distinct, kind_limit, plain_limit};

use super::operators::OperatorNumber;

// The number of a name among those of its kind, from 0.
pub type NameNumber = u8;

// A rank, and the height of a kind, which is its highest possible rank.
pub type Height = u8;

// A finite set of values with an order, names and operators. The ghost members say what they are; `lawful` is owed by every
// kind, and so is `limits`, which stands apart since it can be widened.
pub trait Kind: Copy {
    // "at or below"
    ghost below: { Self → Self → Bool };

    ghost bottom: { Self };

    ghost join: { Self → Self → Self };

    ghost rank: { Self → ℕ };

    ghost height: { ℕ };

    ghost operate: { ℕ → Self → Self → Self };

    ghost names: { ℕ };

    ghost spelling: { ℕ → List ℕ };

    ghost value: { ℕ → Self };

    fn bottom() -> Self
        ensures { result ≡ bottom };

    fn at_or_below(self, other: Self) -> bool
        ensures { result ≡ below self other };

    fn join(self, other: Self) -> Self
        ensures { result ≡ join self other };

    fn rank(self) -> Height
        ensures { result ≡ rank self };

    fn height() -> Height
        ensures { result ≡ height };

    // Its three parameters are those of one function, which each kind has once.
    fn operate(number: OperatorNumber, a: Self, b: Self) -> Self
        ensures { result ≡ operate number a b };

    fn names() -> NameNumber
        ensures { result ≡ names };

    fn spelling(number: NameNumber) -> &'static [u8]
        ensures { result.now ≡ spelling number };

    fn value(number: NameNumber) -> Self
        ensures { result ≡ value number };

    ghost lawful: { KindLaws below bottom join rank height operate names spelling value };

    ghost limits: { Limited kind_limit names height };
}

// A kind that leaves room for another one beside it, as `Pair` has them.
pub trait PlainKind: Kind {
    const NAMES: NameNumber;

    const HEIGHT: Height;

    ghost NAMES: { ℕ };

    ghost HEIGHT: { ℕ };

    // `NAMES`, for code that knows the kind only by this trait.
    fn plain_names() -> NameNumber
        ensures { (result ≡ Self.Kind.names) × (result ≤ plain_limit) }
    {
        Self::NAMES
    }

    // `HEIGHT`, likewise.
    fn plain_height() -> Height
        ensures { (result ≡ Self.Kind.height) × (result ≤ plain_limit) }
    {
        Self::HEIGHT
    }

    ghost stated: { (NAMES ≡ Self.Kind.names) × (HEIGHT ≡ Self.Kind.height) };

    ghost plain: { Limited plain_limit Self.Kind.names Self.Kind.height };

    ghost distinct: { Distinct Self.Kind.names Self.Kind.spelling };
}
