use super::shown::{Case, check_cases};
use std::test::Fail;

const RESERVED: [Case; 2] = [
    (
        b"val fun let in end if",
        "0:Val 4:Fun 8:Let 12:In 15:End 19:If",
    ),
    (
        b"then else ref int div mod",
        "0:Then 5:Else 10:Ref 14:Int 18:Div 22:Mod",
    ),
];

// Near to reserved words: a letter more or less, another byte more, capitals.
const NOT_RESERVED: [Case; 5] = [
    (
        b"vals funs lets inn ends iff",
        "0:vals 5:funs 10:lets 15:inn 19:ends 24:iff",
    ),
    (
        b"thens elses refs ints divs mods",
        "0:thens 6:elses 12:refs 17:ints 22:divs 27:mods",
    ),
    (
        b"va fu le i en f the els re di mo",
        "0:va 3:fu 6:le 9:i 11:en 14:f 16:the 20:els 24:re 27:di 30:mo",
    ),
    (b"val_ fun' in1 letlet", "0:val_ 5:fun' 10:in1 14:letlet"),
    (b"VAL vAl IF iF", "0:VAL 4:vAl 8:IF 11:iF"),
];

const IDENTIFIERS: [Case; 9] = [
    (b"AZaz09 a'b_9 x'' x_", "0:AZaz09 7:a'b_9 13:x'' 17:x_"),
    (b"abcdefghijklmnop", "0:abcdefghijklmnop"),
    (b"abcdefghijklmnopq", "refused 2 0"),
    (b" x abcdefghijklmnopq", "refused 2 3"),
    (b"a_'9________0123", "0:a_'9________0123"),
    (b"a_'9________01234", "refused 2 0"),
    (b"_a", "refused 2 0"),
    (b"'a", "refused 2 0"),
    (b"a _", "refused 2 2"),
];

const LITERALS: [Case; 10] = [
    (b"0 007 9", "0:0 2:007 6:9"),
    (b"123456789", "0:123456789"),
    (b"1234567890", "refused 2 0"),
    (b"000000000", "0:000000000"),
    (b"0000000000", "refused 2 0"),
    (b"5 1234567890", "refused 2 2"),
    (b"2then", "0:2 1:Then"),
    (b"x1 1x 123456789a", "0:x1 3:1 4:x 6:123456789 15:a"),
    (b"1_", "refused 2 1"),
    (b"9'", "refused 2 1"),
];

#[test]
fn reserved_words_are_read(rt: HostRuntime) -> Result<(), Fail> {
    check_cases(&rt, rt.alloc(), &RESERVED)?;
    check_cases(&rt, rt.alloc(), &NOT_RESERVED)
}

#[test]
fn identifiers_have_at_most_16_bytes(rt: HostRuntime) -> Result<(), Fail> {
    check_cases(&rt, rt.alloc(), &IDENTIFIERS)
}

#[test]
fn literals_have_at_most_9_digits(rt: HostRuntime) -> Result<(), Fail> {
    check_cases(&rt, rt.alloc(), &LITERALS)
}
