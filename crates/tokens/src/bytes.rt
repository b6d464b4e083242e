ghost use Rattle.std.specs.Prelude.{◌≡◌, ◌≤◌, length};
ghost use Rattle.std.specs.List.{prefix_len};
ghost use Rattle.tokens.specs.Bytes.{blank};
ghost use Rattle.tokens.specs.Classes.{in_class};

// The classes are no closures, since contracts cite them by name.
#[derive(Clone, Copy, Debug, PartialEq, Eq)]
pub enum Class {
    // a letter
    Letter,
    // a digit
    Digit,
    // what may follow an identifier's first letter
    Tail,
    // one of `! + - * < : =`
    Operator,
    // a letter, `,` or `/`
    Marking,
}

pub fn is_blank(b: u8) -> bool
    ensures { result ≡ blank b }
{
    matches!(b, b' ' | b'\t' | b'\n' | b'\r')
}

impl Class {
    pub fn has(self, b: u8) -> bool
        ensures { result ≡ in_class self b }
    {
        match b {
            b'A'..=b'Z' | b'a'..=b'z' => !matches!(self, Class::Digit | Class::Operator),
            b'0'..=b'9' => matches!(self, Class::Digit | Class::Tail),
            b'_' | b'\'' => matches!(self, Class::Tail),
            b'!' | b'+' | b'-' | b'*' | b'<' | b':' | b'=' => matches!(self, Class::Operator),
            b',' | b'/' => matches!(self, Class::Marking),
            _ => false,
        }
    }
}

// How many bytes at the front are of the class.
pub fn run_len(bytes: &[u8], class: Class) -> usize
    ensures run { result ≡ prefix_len (in_class class) bytes.now }
    ensures within { result ≤ length bytes.now }
{
    bytes.iter().take_while(|b| class.has(**b)).count()
}
