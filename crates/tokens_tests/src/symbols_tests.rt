use super::shown::{Case, check_cases};
use std::test::Fail;

const SYMBOLS: [Case; 9] = [
    (b"! + - * < : =", "0:! 2:+ 4:- 6:* 8:< 10:: 12:="),
    (b"( ) , ;", "0:( 2:) 4:, 6:;"),
    (b":=", "0::="),
    (b": =", "0:: 2:="),
    (b"()),,;;(", "0:( 1:) 2:) 3:, 4:, 5:; 6:; 7:("),
    (b"x:=(!y)", "0:x 1::= 3:( 4:! 5:y 6:)"),
    (b"( *", "0:( 2:*"),
    (b"( *)", "0:( 2:* 3:)"),
    (b")*(", "0:) 1:* 2:("),
];

// Runs of operator characters are no token, whatever they begin with.
const RUNS: [Case; 12] = [
    (b"=:", "refused 2 0"),
    (b"!!", "refused 2 0"),
    (b"::=", "refused 2 0"),
    (b":==", "refused 2 0"),
    (b"<=", "refused 2 0"),
    (b"::", "refused 2 0"),
    (b"==", "refused 2 0"),
    (b"+-*", "refused 2 0"),
    (b"x:=!y", "refused 2 1"),
    (b"x=-1", "refused 2 1"),
    (b"(!!y", "refused 2 1"),
    (b"x := !!y", "refused 2 5"),
];

// No blank parts the tokens where none is needed.
const ADJACENT: [Case; 5] = [
    (b"x(*$a*)=1", "0:x 1:(*$a*) 7:= 8:1"),
    (b"!q(*!a*)(*!b*);", "0:! 1:q 2:(*!a*) 8:(*!b*) 14:;"),
    (
        b"fun f(x:int ref):int=x",
        "0:Fun 4:f 5:( 6:x 7:: 8:Int 12:Ref 15:) 16:: 17:Int 20:= 21:x",
    ),
    (
        b"if a<b then 1else 2",
        "0:If 3:a 4:< 5:b 7:Then 12:1 13:Else 18:2",
    ),
    (
        b"let val x=1in x end",
        "0:Let 4:Val 8:x 9:= 10:1 11:In 14:x 16:End",
    ),
];

#[test]
fn symbols_are_read(rt: HostRuntime) -> Result<(), Fail> {
    check_cases(&rt, rt.alloc(), &SYMBOLS)
}

#[test]
fn operator_runs_are_one_symbol_or_none(rt: HostRuntime) -> Result<(), Fail> {
    check_cases(&rt, rt.alloc(), &RUNS)
}

#[test]
fn adjacent_tokens_are_parted(rt: HostRuntime) -> Result<(), Fail> {
    check_cases(&rt, rt.alloc(), &ADJACENT)
}
